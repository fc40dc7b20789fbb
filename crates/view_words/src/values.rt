//! What the values of the options say.
ghost use Rattle.std.specs.Prelude.{◌≡◌, ◌≤◌, ◌<◌, IfSome, option_map};
ghost use Rattle.view_words.specs.Values as spec;
ghost use Rattle.aps_model.specs.Limits.{most_ticks};

use crate::asked::Ticks;
use aps_model::Name;
use aps_model::limits::MOST_TICKS;
use aps_words::number_in;

/// The ticks from the first value to the second.
pub fn ticks_of(from: Option<&str>, to: Option<&str>) -> Option<Ticks>
    ensures same { result ≡ spec.ticks_of (option_map (λ text. text.now) from.entry) (option_map (λ text. text.now) to.entry) }
    ensures ranges { IfSome result spec.AreTicks }
{
    let from = from_of(from)?;
    let to = to_of(to)?;
    between(from, to)
}

/// The tick that the value is, 0 to 1,000,000, or 0 where there is no value.
fn from_of(value: Option<&str>) -> Option<u32>
    ensures same { result ≡ spec.from_of (option_map (λ text. text.now) value.entry) }
    ensures range { IfSome result (λ from. from ≤ most_ticks) }
{
    match value {
        None => Some(0),
        Some(text) => number_in(0, MOST_TICKS, text).map(|tick| tick as u32),
    }
}

/// The tick that the value is, 0 to 1,000,000; or no end where there is no value.
fn to_of(value: Option<&str>) -> Option<Option<u32>>
    ensures same { result ≡ spec.to_of (option_map (λ text. text.now) value.entry) }
    ensures range { IfSome result (λ to. IfSome to (λ tick. tick ≤ most_ticks)) }
{
    match value {
        None => Some(None),
        Some(text) => number_in(0, MOST_TICKS, text).map(|tick| Some(tick as u32)),
    }
}

/// The ticks from one to another, where that is later.
fn between(from: u32, to: Option<u32>) -> Option<Ticks>
    requires from { from ≤ most_ticks }
    requires to { IfSome to (λ tick. tick ≤ most_ticks) }
    ensures same { result ≡ spec.between from to }
    ensures ranges { IfSome result spec.AreTicks }
{
    match to {
        None => Some(Ticks { from, to: None }),
        Some(end) if from < end => Some(Ticks {
            from,
            to: Some(end),
        }),
        Some(_) => None,
    }
}

/// The thread that the value names, which has to be there.
pub fn thread_of(value: Option<&str>) -> Option<Option<Name>>
    ensures { result ≡ spec.thread_asked (option_map (λ text. text.now) value.entry) }
{
    Some(name_in(value?))
}

/// The name that the text is, if it is one.
fn name_in(text: &str) -> Option<Name>
    ensures { result ≡ spec.name_in text.now }
{
    match Name::new(text.as_bytes()) {
        Ok(name) => Some(name),
        Err(_) => None,
    }
}
