//! The names that a text has.
use crate::line::Line;
use crate::value::{push_number, push_quoted};
use aps_model::NoMemory;
use std::alloc::Global;
use toml::value::Array;
use toml::{Table, Value};

/// The most names that are told one by one.
const MOST_NAMES: usize = 8;

/// What a name may be the name of.
#[derive(Clone, Copy)]
pub enum Named {
    /// `System`, and the first so many of the partitions in the list.
    Partitions { first: usize },
    /// `System`, the partitions in the list, and those that commands create.
    Joinable,
    Channels,
    Threads,
}

impl Named {
    /// The key of the list.
    fn key(self) -> &'static str {
        match self {
            Named::Partitions { .. } | Named::Joinable => "partition",
            Named::Channels => "channel",
            Named::Threads => "thread",
        }
    }

    /// What is told where the list has none.
    fn none(self) -> &'static str {
        match self {
            Named::Partitions { .. } | Named::Joinable => "no others",
            Named::Channels => "no channels",
            Named::Threads => "no threads",
        }
    }

    /// How many of the elements of the list count.
    fn counted(self, length: usize) -> usize {
        match self {
            Named::Partitions { first } => first.min(length),
            Named::Joinable | Named::Channels | Named::Threads => length,
        }
    }

    /// The name that stands in no list.
    fn unlisted(self) -> &'static str {
        match self {
            Named::Partitions { .. } => "System, ",
            Named::Joinable => "System, what commands create, ",
            Named::Channels | Named::Threads => "",
        }
    }
}

/// Writes which names there are: one by one where they are few, else how many.
pub fn push_names(
    alloc: Global,
    line: &mut Line,
    top: &Table,
    named: Named,
) -> Result<(), NoMemory> {
    line.push_text(b"known are ")?;
    line.push_text(named.unlisted().as_bytes())?;
    match top.get(named.key()).and_then(Value::as_array) {
        Some(elements) => push_elements(alloc, line, elements, named),
        None => push_count(alloc, line, 0, named),
    }
}

fn push_elements(
    alloc: Global,
    line: &mut Line,
    elements: &Array,
    named: Named,
) -> Result<(), NoMemory> {
    let count = named.counted(elements.len());
    if count == 0 || count > MOST_NAMES {
        return push_count(alloc, line, count, named);
    }
    let mut between: &[u8] = b"";
    for element in elements.iter().take(count) {
        line.push_text(between)?;
        push_name(line, element)?;
        between = b", ";
    }
    Ok(())
}

/// Writes the name of a table.
fn push_name(line: &mut Line, element: &Value) -> Result<(), NoMemory> {
    match element.get("name").and_then(Value::as_str) {
        Some(name) => push_quoted(line, name.as_bytes()),
        None => line.push_text(b"one without a name"),
    }
}

fn push_count(alloc: Global, line: &mut Line, count: usize, named: Named) -> Result<(), NoMemory> {
    if count == 0 {
        line.push_text(named.none().as_bytes())
    } else {
        line.push_text(b"the ")?;
        push_number(alloc, line, count)?;
        line.push_text(b" of the list ")?;
        line.push_text(named.key().as_bytes())
    }
}
