//! The partitions that a program may join.
ghost use Rattle.std.specs.Prelude.{◌≡◌, ◌++◌, OnOk, IfOk, map, option_map};
ghost use Rattle.toml.specs.View.{view, table_view, array_view};
ghost use Rattle.aps_model.specs.declared.partition.PartitionRow.{PartitionRow as Row};
ghost use Rattle.aps_scenario.specs.Joinable as spec;

use crate::key::Key;
use crate::row::{name, value_at};
use crate::words::{CommandKind, command_kind};
use aps_model::{Name, NoMemory, PartitionRow};
use std::alloc::Global;
use toml::value::Array;
use toml::{Table, Value};

/// The kind of command that a table's `do` names.
pub fn command_kind_in(table: &Table) -> Option<CommandKind>
    ensures { result ≡ spec.command_kind (table_view table.now) }
{
    match value_at(table, Key::Do) {
        Some(value) => command_kind(value).ok(),
        None => None,
    }
}

// The name in a table, where it is a text that can be a name.
fn own_name(table: &Table) -> Option<Name>
    ensures { result ≡ spec.own_name (table_view table.now) }
{
    match value_at(table, Key::Name) {
        Some(value) => name(value).ok(),
        None => None,
    }
}

// The name that a command would give to a new partition, whatever else is wrong with it.
fn created_name(value: &Value) -> Option<Name>
    ensures { result ≡ spec.name_to_create (view value.now) }
{
    let Some(table) = value.as_table() else {
        return None;
    };
    match command_kind_in(table) {
        Some(CommandKind::Create) => own_name(table),
        _ => None,
    }
}

fn add_rows(names: &mut Vec<Name>, rows: &[PartitionRow]) -> Result<(), NoMemory>
    ensures { OnOk result (names.new.items ≡ names.old.items ++ map (λ (row : Row). row.name) rows.now) }
{
    for row in rows {
        names.push(row.name)?;
    }
    Ok(())
}

fn add_name(names: &mut Vec<Name>, name: Option<Name>) -> Result<(), NoMemory>
    ensures { OnOk result (names.new.items ≡ names.old.items ++ spec.name_listed name) }
{
    if let Some(name) = name {
        names.push(name)?;
    }
    Ok(())
}

fn add_created(names: &mut Vec<Name>, commands: &Array) -> Result<(), NoMemory>
    ensures { OnOk result (names.new.items ≡ names.old.items ++ spec.created_names (array_view commands.now)) }
{
    for value in commands {
        add_name(names, created_name(value))?;
    }
    Ok(())
}

fn commands_in(table: &Table) -> Option<&Array>
    ensures { option_map (λ a. array_view a.now) result ≡ spec.commands_in (table_view table.now) }
{
    match value_at(table, Key::Command) {
        Some(value) => value.as_array(),
        None => None,
    }
}

/// The names of these partitions, and those that the commands of a top table would give.
pub fn joinable_at(
    alloc: Global,
    rows: &[PartitionRow],
    table: &Table,
) -> Result<Vec<Name>, NoMemory>
    ensures { IfOk result (λ names. names.items ≡ spec.joinable_at rows.now (table_view table.now)) }
{
    let mut names = Vec::new(alloc);
    add_rows(&mut names, rows)?;
    if let Some(commands) = commands_in(table) {
        add_created(&mut names, commands)?;
    }
    Ok(names)
}
