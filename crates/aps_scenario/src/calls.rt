//! What a command asks, by its kind: each kind has its own keys.
ghost use Rattle.std.specs.Prelude.{◌≡◌, ◌≤◌, IfSome, length};
ghost use Rattle.std.specs.List.{list_any};
ghost use Rattle.toml.specs.View.{view, table_view};
ghost use Rattle.aps_scenario.specs.Row.{value_of};
ghost use Rattle.aps_scenario.specs.Calls as spec;
ghost use Rattle.aps_model.specs.Limits.{most_threads};

use crate::key::Key;
use crate::kind::Kind;
use crate::partitions::system_name;
use crate::refusal::{Finding, Place};
use crate::row::{
    at_key, integer_at, name, name_at, optional_integer_at, optional_truth_at, refuse_if, value_at,
};
use crate::words::{CommandKind, optional_bankruptcy_at, optional_free_at};
use aps_model::limits::MOST_CRITICAL;
use aps_model::{Call, Name, ThreadId, ThreadRow};
use toml::{Table, Value};

fn has_key(table: &Table, key: Key) -> bool
    ensures { result ≡ spec.has_key (table_view table.now) key }
{
    value_at(table, key).is_some()
}

fn has_some_key(table: &Table, keys: &[Key]) -> bool
    ensures { result ≡ list_any (spec.has_key (table_view table.now)) keys.now }
{
    keys.iter().any(|key| has_key(table, *key))
}

fn place_of(threads: &[ThreadRow], name: &Name) -> Option<usize>
    ensures { result ≡ spec.thread_by_name threads.now name.now }
{
    threads
        .iter()
        .position(|row| row.name.text() == name.text())
}

fn thread_of(threads: &[ThreadRow], value: &Value) -> Result<ThreadId, Kind>
    requires { length threads.now ≤ most_threads }
    ensures { result ≡ spec.thread_in_value threads.now (view value.now) }
{
    let name = name(value)?;
    match place_of(threads, &name) {
        Some(place) => Ok(ThreadId::at(place)),
        None => Err(Kind::UnknownName),
    }
}

fn thread_at(table: &Table, place: Place, threads: &[ThreadRow]) -> Result<ThreadId, Finding>
    requires { length threads.now ≤ most_threads }
    ensures { result ≡ value_of (spec.row_thread threads.now) place (table_view table.now) }
{
    let found = match value_at(table, Key::Thread) {
        None => Err(Kind::Missing),
        Some(value) => thread_of(threads, value),
    };
    at_key(place, Key::Thread, found)
}

fn partition_at(table: &Table, place: Place) -> Result<Name, Finding>
    ensures { result ≡ value_of spec.row_partition_name place (table_view table.now) }
{
    name_at(table, place, Key::Partition, None)
}

#[tactic(auto, unfolding(crate::specs::Calls::create_at))]
fn create_at(table: &Table, place: Place, parts: u16) -> Result<Call, Finding>
    ensures { result ≡ spec.create_at parts place (table_view table.now) }
{
    let most = u64::from(parts);
    let name = name_at(table, place, Key::Name, None)?;
    let parent = name_at(table, place, Key::Parent, Some(system_name()))?;
    let budget = integer_at(table, place, Key::Budget, 0, most, 1, None)? as u16;
    let critical = integer_at(table, place, Key::Critical, 0, MOST_CRITICAL, 1, Some(0))?;
    let max = integer_at(table, place, Key::Max, 0, most, 1, Some(most))? as u16;
    Ok(Call::Create {
        name,
        parent,
        budget,
        critical,
        max,
    })
}

// The number as parts, where there is one.
fn as_parts(number: Option<u64>) -> Option<u16>
    requires { IfSome number (λ n. n ≤ 65535) }
    ensures { result ≡ number }
{
    match number {
        Some(number) => Some(number as u16),
        None => None,
    }
}

#[tactic(auto, unfolding(crate::specs::Calls::modify_at))]
fn modify_at(table: &Table, place: Place, parts: u16) -> Result<Call, Finding>
    ensures { result ≡ spec.modify_at parts place (table_view table.now) }
{
    let most = u64::from(parts);
    let partition = partition_at(table, place)?;
    let some = has_some_key(table, &[Key::Budget, Key::Critical, Key::Max]);
    refuse_if(!some, Kind::Missing, place, Key::Budget)?;
    let budget = as_parts(optional_integer_at(table, place, Key::Budget, 0, most)?);
    let critical = optional_integer_at(table, place, Key::Critical, 0, MOST_CRITICAL)?;
    let max = as_parts(optional_integer_at(table, place, Key::Max, 0, most)?);
    Ok(Call::Modify {
        partition,
        budget,
        critical,
        max,
    })
}

#[tactic(auto, unfolding(crate::specs::Calls::set_parameters_at))]
fn set_parameters_at(table: &Table, place: Place) -> Result<Call, Finding>
    ensures { result ≡ spec.set_parameters_at place (table_view table.now) }
{
    let keys = [Key::Window, Key::Free, Key::Limit, Key::Bankruptcy];
    let some = has_some_key(table, &keys);
    refuse_if(!some, Kind::Missing, place, Key::Window)?;
    let window = as_parts(optional_integer_at(table, place, Key::Window, 8, 400)?);
    let free = optional_free_at(table, place)?;
    let limit = optional_truth_at(table, place, Key::Limit)?;
    let bankruptcy = optional_bankruptcy_at(table, place)?;
    Ok(Call::SetParameters {
        window,
        free,
        limit,
        bankruptcy,
    })
}

/// What a command of this kind asks, where budgets count in these parts and these are the threads.
pub fn call_at(
    table: &Table,
    place: Place,
    kind: CommandKind,
    parts: u16,
    threads: &[ThreadRow],
) -> Result<Call, Finding>
    requires { length threads.now ≤ most_threads }
    ensures { result ≡ spec.call_at parts threads.now kind place (table_view table.now) }
{
    match kind {
        CommandKind::Create => create_at(table, place, parts),
        CommandKind::Modify => modify_at(table, place, parts),
        CommandKind::Lookup => Ok(Call::Lookup {
            partition: partition_at(table, place)?,
        }),
        CommandKind::QueryPartition => Ok(Call::QueryPartition {
            partition: partition_at(table, place)?,
        }),
        CommandKind::QueryThread => Ok(Call::QueryThread {
            thread: thread_at(table, place, threads)?,
        }),
        CommandKind::QueryParameters => Ok(Call::QueryParameters),
        CommandKind::SetParameters => set_parameters_at(table, place),
        CommandKind::Statistics => Ok(Call::Statistics {
            partition: partition_at(table, place)?,
        }),
        CommandKind::MarkCritical => Ok(Call::MarkCritical {
            thread: thread_at(table, place, threads)?,
        }),
        CommandKind::ClearCritical => Ok(Call::ClearCritical {
            thread: thread_at(table, place, threads)?,
        }),
    }
}
