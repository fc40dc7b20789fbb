//! What a partition's parent has left.
use crate::line::Line;
use crate::value::push_integer;
use aps_model::NoMemory;
use std::alloc::Global;
use toml::value::Array;
use toml::{Table, Value};

/// Writes what the parent of a partition, by its index in the list, has left when the partition takes its budget.
pub fn push_left(
    alloc: Global,
    line: &mut Line,
    top: &Table,
    index: usize,
) -> Result<(), NoMemory> {
    match left_in(top, index) {
        Some(left) => {
            line.push_text(b"that is ")?;
            push_integer(alloc, line, left)
        }
        None => line.push_text(b"the budgets below a parent are taken from its own"),
    }
}

/// The parts that the parent of a partition has left, before the partition takes its budget.
fn left_in(top: &Table, index: usize) -> Option<i64> {
    let partitions = top.get("partition")?.as_array()?;
    let parent = parent_of(partitions.get(index)?);
    let own = match parent {
        "System" => parts_in(top),
        name => budget_named(partitions, name)?,
    };
    Some(left_after(partitions, index, parent, own))
}

/// What is left of a parent's own parts after the first so many partitions of the list.
fn left_after(partitions: &Array, index: usize, parent: &str, own: i64) -> i64 {
    let mut left = own;
    for partition in partitions.iter().take(index) {
        if parent_of(partition) == parent {
            left = left.saturating_sub(budget_of(partition));
        }
    }
    left
}

/// The parts of all processor time, by the version.
fn parts_in(top: &Table) -> i64 {
    match top.get("version").and_then(Value::as_integer) {
        Some(2) => 1000,
        _ => 100,
    }
}

fn parent_of(partition: &Value) -> &str {
    partition
        .get("parent")
        .and_then(Value::as_str)
        .unwrap_or("System")
}

fn budget_of(partition: &Value) -> i64 {
    partition
        .get("budget")
        .and_then(Value::as_integer)
        .unwrap_or(0)
}

/// The budget of the partition of this name.
fn budget_named(partitions: &Array, name: &str) -> Option<i64> {
    for partition in partitions {
        if partition.get("name").and_then(Value::as_str) == Some(name) {
            return Some(budget_of(partition));
        }
    }
    None
}
