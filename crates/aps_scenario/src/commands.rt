//! The timed commands of a scenario, as the elements of an array.
ghost use Rattle.std.specs.Prelude.{◌≡◌, ◌<◌, ◌≤◌, [], length};
ghost use Rattle.toml.specs.View.{view, table_view, array_view};
ghost use Rattle.aps_scenario.specs.Calls.{command_keys};
ghost use Rattle.aps_scenario.specs.Row.{only as only_spec};
ghost use Rattle.aps_scenario.specs.Refusal.{ReadsOrFails};
ghost use Rattle.aps_scenario.specs.Commands as spec;
ghost use Rattle.aps_model.specs.Limits.{most_commands, most_threads};

use crate::calls::call_at;
use crate::joinable::command_kind_in;
use crate::key::Key;
use crate::refusal::{Failure, Finding, Place};
use crate::row::{integer_at, only, table_of, tables_at};
use crate::words::{CommandKind, kind_at};
use aps_model::limits::MOST_COMMANDS;
use aps_model::{CommandRow, Shape, ThreadRow};
use std::alloc::Global;
use toml::value::Array;
use toml::{Table, Value};

const CREATE_KEYS: [Key; 7] = [
    Key::Tick,
    Key::Do,
    Key::Name,
    Key::Parent,
    Key::Budget,
    Key::Critical,
    Key::Max,
];

const MODIFY_KEYS: [Key; 6] = [
    Key::Tick,
    Key::Do,
    Key::Partition,
    Key::Budget,
    Key::Critical,
    Key::Max,
];

const SET_PARAMETERS_KEYS: [Key; 6] = [
    Key::Tick,
    Key::Do,
    Key::Window,
    Key::Free,
    Key::Limit,
    Key::Bankruptcy,
];

const PARTITION_KEYS: [Key; 3] = [Key::Tick, Key::Do, Key::Partition];

const THREAD_KEYS: [Key; 3] = [Key::Tick, Key::Do, Key::Thread];

const OTHER_KEYS: [Key; 2] = [Key::Tick, Key::Do];

// Refuses the first key that a command of this kind doesn't have.
fn only_own_keys(kind: Option<CommandKind>, place: Place, table: &Table) -> Result<(), Finding>
    ensures { result ≡ only_spec (command_keys kind) place (table_view table.now) }
{
    match kind {
        Some(CommandKind::Create) => only(&CREATE_KEYS, place, table),
        Some(CommandKind::Modify) => only(&MODIFY_KEYS, place, table),
        Some(CommandKind::SetParameters) => only(&SET_PARAMETERS_KEYS, place, table),
        Some(CommandKind::Lookup | CommandKind::QueryPartition | CommandKind::Statistics) => {
            only(&PARTITION_KEYS, place, table)
        }
        Some(CommandKind::QueryThread | CommandKind::MarkCritical | CommandKind::ClearCritical) =>
            only(&THREAD_KEYS, place, table),
        Some(CommandKind::QueryParameters) | None => only(&OTHER_KEYS, place, table),
    }
}

/// The command after so many, where these are the sizes and the threads.
#[tactic(auto, unfolding(crate::specs::Commands::command_read_at))]
fn next_command(
    shape: &Shape,
    threads: &[ThreadRow],
    commands: &[CommandRow],
    value: &Value,
) -> Result<CommandRow, Finding>
    requires some_tick { 0 < shape.now.ticks }
    requires few_threads { length threads.now ≤ most_threads }
    requires few { length commands.now ≤ most_commands }
    ensures { result ≡ spec.next_command shape.now threads.now commands.now (view value.now) }
{
    let place = Place::Command(commands.len() as u16);
    let table = table_of(place, value)?;
    only_own_keys(command_kind_in(table), place, table)?;
    let last = u64::from(shape.ticks - 1);
    let tick = integer_at(table, place, Key::Tick, 0, last, 1, None)? as u32;
    let kind = kind_at(table, place)?;
    let call = call_at(table, place, kind, shape.parts, threads)?;
    Ok(CommandRow { tick, call })
}

/// The commands of these elements.
fn commands_of(
    alloc: Global,
    shape: &Shape,
    threads: &[ThreadRow],
    array: &Array,
) -> Result<Vec<CommandRow>, Failure>
    requires some_tick { 0 < shape.now.ticks }
    requires few_threads { length threads.now ≤ most_threads }
    requires few { length array.now.items ≤ most_commands }
    ensures { ReadsOrFails (λ commands. commands.items) result (spec.commands_from shape.now threads.now [] (array_view array.now)) }
{
    let mut commands = Vec::new(alloc);
    for value in array {
        let command = next_command(shape, threads, &commands, value)?;
        commands.push(command)?;
    }
    Ok(commands)
}

/// The commands of the top table, where these are the sizes and the threads.
#[tactic(auto, unfolding(crate::specs::Commands::commands_at, crate::specs::Elements::read_each))]
pub fn commands_at(
    alloc: Global,
    shape: &Shape,
    threads: &[ThreadRow],
    table: &Table,
) -> Result<Vec<CommandRow>, Failure>
    requires some_tick { 0 < shape.now.ticks }
    requires few_threads { length threads.now ≤ most_threads }
    ensures { ReadsOrFails (λ commands. commands.items) result (spec.commands_at shape.now threads.now (table_view table.now)) }
{
    match tables_at(table, Place::Top, Key::Command, MOST_COMMANDS)? {
        Some(array) => commands_of(alloc, shape, threads, array),
        None => Ok(Vec::new(alloc)),
    }
}
