//! The line of a hint, of its parts.
ghost use Rattle.std.specs.Prelude.{◌≡◌, IfOk};
ghost use Rattle.aps_hints.specs.Hint.{IsHintOf, hint_text, placed_text, reason_text};

use crate::line::Line;
use aps_model::NoMemory;
use aps_scenario::Kind;
use std::alloc::Global;

/// What a hint says beside its path and its reason.
#[derive(Drop)]
pub struct Parts {
    /// Where in the text the path leads, if the text has a place there.
    pub place: Option<Line>,
    /// The value that was refused, if the refusal is of one.
    pub value: Line,
    /// What is wanted.
    pub wanted: Line,
}

impl Parts {
    /// Parts that say nothing.
    pub fn new(alloc: Global) -> Parts {
        Parts {
            place: None,
            value: Line::new(alloc),
            wanted: Line::new(alloc),
        }
    }
}

/// The line of these parts.
pub fn told(alloc: Global, path: &[u8], kind: Kind, parts: &Parts) -> Result<Line, NoMemory>
    ensures { IfOk result (IsHintOf path.now kind) }
{
    match &parts.place {
        Some(place) => told_at(alloc, path, place, &parts.value, kind, &parts.wanted),
        None => told_of(alloc, path, &parts.value, kind, &parts.wanted),
    }
}

/// The line without a place: its parts, one behind the other.
fn told_of(
    alloc: Global,
    path: &[u8],
    value: &Line,
    kind: Kind,
    wanted: &Line,
) -> Result<Line, NoMemory>
    ensures { IfOk result (λ line. line ≡ hint_text path.now value.now kind wanted.now) }
{
    let mut line = Line::new(alloc);
    line.push_text(path)?;
    line.push_text(b": ")?;
    line.push_text(value.as_bytes())?;
    line.push_text(reason(kind).as_bytes())?;
    line.push_text(wanted.as_bytes())?;
    Ok(line)
}

/// The line with a place.
fn told_at(
    alloc: Global,
    path: &[u8],
    place: &Line,
    value: &Line,
    kind: Kind,
    wanted: &Line,
) -> Result<Line, NoMemory>
    ensures { IfOk result (λ line. line ≡ placed_text path.now place.now value.now kind wanted.now) }
{
    let mut line = Line::new(alloc);
    line.push_text(path)?;
    line.push_text(b" (")?;
    line.push_text(place.as_bytes())?;
    line.push_text(b"): ")?;
    line.push_text(value.as_bytes())?;
    line.push_text(reason(kind).as_bytes())?;
    line.push_text(wanted.as_bytes())?;
    Ok(line)
}

/// What is wrong, as it is told behind the value.
fn reason(kind: Kind) -> &'static str
    ensures { result.now ≡ reason_text kind }
{
    match kind {
        Kind::NotToml => "this is no TOML document; ",
        Kind::Missing => "this key is missing; it takes ",
        Kind::UnknownKey => "this key doesn't belong here; the keys are ",
        Kind::WrongKind => " is of another kind; wanted is ",
        Kind::OutOfRange => " is out of range; wanted is ",
        Kind::BadName => " is no name; wanted is ",
        Kind::UnknownName => " names nothing; ",
        Kind::Duplicate => " is taken; ",
        Kind::BadOperation { .. } => " can't stand here; ",
        Kind::BudgetOver => " is more than the parent has left; ",
    }
}
