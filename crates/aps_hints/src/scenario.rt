//! What a person is told of a text that is no scenario, or no demands.
ghost use Rattle.std.specs.Prelude.{IfOk};
ghost use Rattle.toml.specs.View.{table_view};
ghost use Rattle.aps_hints.specs.Hint.{IsHint, IsHintOf, IsTableHint};

use crate::blame::{do_fault, do_path};
use crate::fault::push_fault;
use crate::line::Line;
use crate::place::place_of;
use crate::placed::place_told;
use crate::spot::{Document, Spot, spot_of};
use crate::told::{Parts, told};
use crate::value::push_value;
use crate::wanted::push_wanted;
use aps_model::NoMemory;
use aps_scenario::{Kind, PathText};
use std::alloc::{AllocError, Global};
use toml::Table;

/// What a person is told of a refused text: the path of the part that was refused, where that is in the text, the value that
/// stands there, what is wrong with it, and what is wanted. `kind` and `path` are those of the refusal, as `scenario_of` or
/// `demands_of` of `aps_scenario` gives them for these bytes. Where the bytes have no value at the path the line says so, in
/// its place. Where a command has a key that doesn't belong there, since its `do` names no command, `do` is what is told.
pub fn scenario_hint(
    alloc: Global,
    bytes: &[u8],
    document: Document,
    kind: Kind,
    path: &PathText,
) -> Result<Line, NoMemory>
    ensures { IfOk result (IsHint bytes.now path.now kind) }
{
    match toml::table_from_slice(alloc, bytes) {
        Ok(top) => table_hint(alloc, bytes, document, kind, path.text(), &top),
        Err(error) if error.is_memory() => Err(AllocError),
        Err(error) => {
            let mut parts = Parts::new(alloc);
            push_fault(alloc, &mut parts.wanted, bytes, &error)?;
            whole_told(alloc, path.text(), kind, &parts)
        }
    }
}

/// What is told of a text as a whole.
fn whole_told(alloc: Global, path: &[u8], kind: Kind, parts: &Parts) -> Result<Line, NoMemory>
    ensures { IfOk result (IsHintOf path.now kind) }
{
    told(alloc, path, kind, parts)
}

/// What is told of a document that is no scenario, or no demands.
fn table_hint(
    alloc: Global,
    bytes: &[u8],
    document: Document,
    kind: Kind,
    path: &[u8],
    top: &Table,
) -> Result<Line, NoMemory>
    ensures { IfOk result (IsTableHint (table_view top.now) path.now kind) }
{
    match do_fault(kind, &spot_at(path), top) {
        Some(fault) => {
            let path = do_path(alloc, path)?;
            part_hint(alloc, bytes, document, fault, &path, top)
        }
        None => part_hint(alloc, bytes, document, kind, path, top),
    }
}

/// What is told of a part of a document.
fn part_hint(
    alloc: Global,
    bytes: &[u8],
    document: Document,
    kind: Kind,
    path: &[u8],
    top: &Table,
) -> Result<Line, NoMemory>
    ensures { IfOk result (IsHintOf path.now kind) }
{
    let spot = spot_at(path);
    let mut parts = Parts::new(alloc);
    if let Some(place) = place_of(bytes, &spot) {
        parts.place = Some(place_told(alloc, bytes, place, &spot, top)?);
    }
    push_refused(alloc, &mut parts.value, top, kind, &spot)?;
    push_wanted(alloc, &mut parts.wanted, top, document, kind, &spot)?;
    told(alloc, path, kind, &parts)
}

/// Where this path leads.
fn spot_at(path: &[u8]) -> Spot<'_> {
    spot_of(std::str::from_utf8(path).unwrap_or("-"))
}

/// Writes the value that was refused, if the refusal is of one.
fn push_refused(
    alloc: Global,
    line: &mut Line,
    top: &Table,
    kind: Kind,
    spot: &Spot<'_>,
) -> Result<(), NoMemory> {
    match kind {
        Kind::NotToml | Kind::Missing | Kind::UnknownKey => Ok(()),
        _ => match spot.value_of(top) {
            Some(value) => push_value(alloc, line, value),
            None => line.push_text(b"the value"),
        },
    }
}
