//! The threads of a scenario, as the elements of an array.
ghost use Rattle.std.specs.Prelude.{◌≡◌, ◌<◌, ◌≤◌, [], length};
ghost use Rattle.toml.specs.View.{view, table_view, array_view};
ghost use Rattle.aps_scenario.specs.Refusal.{ReadsOrFails};
ghost use Rattle.aps_scenario.specs.Threads as spec;
ghost use Rattle.aps_model.specs.Limits.{most_channels, most_partitions, most_threads};

use crate::key::Key;
use crate::kind::Kind;
use crate::partitions::partition_id_at;
use crate::program::program_at;
use crate::refusal::{Failure, Place};
use crate::row::{integer_at, name_at, only, refuse_if, table_of, tables_at, truth_at};
use crate::words::policy_at;
use aps_model::limits::MOST_THREADS;
use aps_model::{Name, PartitionRow, ThreadRow};
use std::alloc::Global;
use toml::value::Array;
use toml::{Table, Value};

const THREAD_KEYS: [Key; 6] = [
    Key::Name,
    Key::Partition,
    Key::Priority,
    Key::Policy,
    Key::Critical,
    Key::Program,
];

fn is_thread(threads: &[ThreadRow], name: &Name) -> bool
    ensures { result ≡ spec.is_thread threads.now name.now }
{
    threads.iter().any(|row| name.text() == row.name.text())
}

/// The thread after these ones, where these are the partitions, the channels and the names that
/// may be joined.
#[tactic(auto, unfolding(crate::specs::Threads::thread_read_at))]
fn next_thread(
    alloc: Global,
    partitions: &[PartitionRow],
    channels: &[Name],
    joinable: &[Name],
    threads: &[ThreadRow],
    value: &Value,
) -> Result<ThreadRow, Failure>
    requires some_partition { 0 < length partitions.now }
    requires few_partitions { length partitions.now ≤ most_partitions }
    requires few_channels { length channels.now ≤ most_channels }
    requires few { length threads.now ≤ most_threads }
    ensures { ReadsOrFails (λ row. row) result (spec.next_thread partitions.now channels.now joinable.now threads.now (view value.now)) }
{
    let index = threads.len() as u16;
    let place = Place::Thread(index);
    let table = table_of(place, value)?;
    only(&THREAD_KEYS, place, table)?;
    let name = name_at(table, place, Key::Name, None)?;
    refuse_if(is_thread(threads, &name), Kind::Duplicate, place, Key::Name)?;
    thread_values(alloc, partitions, channels, joinable, index, name, table)
}

/// The thread of this index and this name, by its other keys.
#[tactic(auto, unfolding(crate::specs::Threads::thread_values))]
fn thread_values(
    alloc: Global,
    partitions: &[PartitionRow],
    channels: &[Name],
    joinable: &[Name],
    index: u16,
    name: Name,
    table: &Table,
) -> Result<ThreadRow, Failure>
    requires some_partition { 0 < length partitions.now }
    requires few_partitions { length partitions.now ≤ most_partitions }
    requires few_channels { length channels.now ≤ most_channels }
    ensures { ReadsOrFails (λ row. row) result
        (spec.thread_values partitions.now channels.now joinable.now index name (table_view table.now)) }
{
    let place = Place::Thread(index);
    let partition = partition_id_at(table, place, Key::Partition, partitions)?;
    let priority = integer_at(table, place, Key::Priority, 1, 255, 1, Some(10))? as u8;
    let policy = policy_at(table, place)?;
    let critical = truth_at(table, place, Key::Critical)?;
    let program = program_at(alloc, table, index, channels, joinable)?;
    Ok(ThreadRow {
        name,
        partition,
        priority,
        policy,
        critical,
        program,
    })
}

/// The threads of these elements.
fn threads_of(
    alloc: Global,
    partitions: &[PartitionRow],
    channels: &[Name],
    joinable: &[Name],
    array: &Array,
) -> Result<Vec<ThreadRow>, Failure>
    requires some_partition { 0 < length partitions.now }
    requires few_partitions { length partitions.now ≤ most_partitions }
    requires few_channels { length channels.now ≤ most_channels }
    requires few { length array.now.items ≤ most_threads }
    ensures { ReadsOrFails (λ threads. threads.items) result
        (spec.threads_from partitions.now channels.now joinable.now [] (array_view array.now)) }
{
    let mut threads = Vec::new(alloc);
    for value in array {
        let thread = next_thread(alloc, partitions, channels, joinable, &threads, value)?;
        threads.push(thread)?;
    }
    Ok(threads)
}

/// The threads of the top table, where these are the partitions, the channels and the names that
/// may be joined.
#[tactic(auto, unfolding(crate::specs::Threads::threads_at, crate::specs::Elements::read_each))]
pub fn threads_at(
    alloc: Global,
    partitions: &[PartitionRow],
    channels: &[Name],
    joinable: &[Name],
    table: &Table,
) -> Result<Vec<ThreadRow>, Failure>
    requires some_partition { 0 < length partitions.now }
    requires few_partitions { length partitions.now ≤ most_partitions }
    requires few_channels { length channels.now ≤ most_channels }
    ensures { ReadsOrFails (λ threads. threads.items) result (spec.threads_at partitions.now channels.now joinable.now (table_view table.now)) }
{
    match tables_at(table, Place::Top, Key::Thread, MOST_THREADS)? {
        Some(array) => threads_of(alloc, partitions, channels, joinable, array),
        None => Ok(Vec::new(alloc)),
    }
}
