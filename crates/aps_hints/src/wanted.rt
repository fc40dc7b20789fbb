//! What is wanted in place of what was refused.
use crate::budget::push_left;
use crate::line::Line;
use crate::names::{Named, push_names};
use crate::operation::{is_operation, operation_takes};
use crate::spot::{Document, Owner, Spot};
use crate::takes::{keys_of, takes};
use aps_model::NoMemory;
use aps_scenario::Kind;
use std::alloc::Global;
use toml::{Table, Value};

/// Writes what is wanted where this kind of refusal leads to this part of a text.
pub fn push_wanted(
    alloc: Global,
    line: &mut Line,
    top: &Table,
    document: Document,
    kind: Kind,
    spot: &Spot<'_>,
) -> Result<(), NoMemory> {
    let wanted = match kind {
        Kind::NotToml => "",
        Kind::Missing => missing(top, spot),
        Kind::UnknownKey => keys_of(document, spot.owner, does(top, spot)),
        Kind::WrongKind | Kind::OutOfRange | Kind::BadName => value_wanted(spot),
        Kind::UnknownName => return push_names(alloc, line, top, named(top, spot)),
        Kind::Duplicate => unique(spot.owner),
        Kind::BadOperation { .. } => operation_wanted(top, spot),
        Kind::BudgetOver => return push_left(alloc, line, top, index_of(spot)),
    };
    line.push_text(wanted.as_bytes())
}

/// What the command does whose table the path leads to.
fn does<'t>(top: &'t Table, spot: &Spot<'_>) -> Option<&'t str> {
    spot.table_of(top)?.get("do")?.as_str()
}

/// What stands at a part of a text.
fn value_wanted(spot: &Spot<'_>) -> &'static str {
    match (spot.key, spot.element) {
        (Some(_), Some(_)) => "a text",
        (Some(key), None) => takes(spot.owner, key),
        (None, _) => "a table",
    }
}

/// What a missing key takes; some commands take one key at least of several.
fn missing(top: &Table, spot: &Spot<'_>) -> &'static str {
    match (spot.owner, spot.key, does(top, spot)) {
        (Owner::Command, Some("budget"), Some("modify")) => {
            "a number of parts, unless critical or max stands there"
        }
        (Owner::Command, Some("window"), Some("set_parameters")) => {
            "a number of ticks, unless free, limit or bankruptcy stands there"
        }
        _ => value_wanted(spot),
    }
}

/// Whose names have to differ.
fn unique(owner: Owner) -> &'static str {
    match owner {
        Owner::Partition => "each partition has a name of its own, and System is one",
        Owner::Channel => "each channel has a name of its own",
        Owner::Thread => "each thread has a name of its own",
        Owner::Demand => "each demand has a name of its own, which isn't System",
        Owner::Top | Owner::Command => "each name stands once",
    }
}

/// The operation that the path leads to.
fn operation<'t>(top: &'t Table, spot: &Spot<'_>) -> &'t str {
    spot.value_of(top).and_then(Value::as_str).unwrap_or("")
}

/// What an operation takes, or where it may stand.
fn operation_wanted(top: &Table, spot: &Spot<'_>) -> &'static str {
    let text = operation(top, spot);
    if is_operation(text) {
        "the last operation, and no other, is run forever, repeat or exit"
    } else {
        operation_takes(text)
    }
}

/// The index of the table in its list; 0 for the top table.
fn index_of(spot: &Spot<'_>) -> usize {
    match spot.table {
        Some((_, index)) => index,
        None => 0,
    }
}

/// What a name that nothing has should be the name of.
fn named(top: &Table, spot: &Spot<'_>) -> Named {
    match (spot.owner, spot.element) {
        (Owner::Partition, _) => Named::Partitions {
            first: index_of(spot),
        },
        (Owner::Command, _) => Named::Threads,
        (_, None) => Named::Partitions { first: usize::MAX },
        (_, Some(_)) => match operation(top, spot).starts_with("join") {
            true => Named::Joinable,
            false => Named::Channels,
        },
    }
}
