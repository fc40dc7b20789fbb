//! The partitions of a scenario, as the elements of an array.
ghost use Rattle.std.specs.Prelude.{◌≡◌, ◌<◌, ◌≤◌, [], ◌∷◌, length, OnOk, IfOk};
ghost use Rattle.toml.specs.View.{view, table_view, array_view};
ghost use Rattle.aps_model.specs.Limits.{last_partition, most_partitions};
ghost use Rattle.aps_model.specs.Partition.{row_or_none, partition_named};
ghost use Rattle.aps_scenario.specs.Refusal.{ReadsOrFails};
ghost use Rattle.aps_scenario.specs.Row.{value_of};
ghost use Rattle.aps_scenario.specs.Partitions as spec;

use crate::key::Key;
use crate::kind::Kind;
use crate::refusal::{Failure, Finding, Place};
use crate::row::{
    at_key, integer_at, name, name_at, only, refuse_if, table_of, tables_at, value_at,
};
use aps_model::limits::MOST_CRITICAL;
use aps_model::{Name, NoMemory, PartitionId, PartitionRow};
use std::alloc::{AllocFailed, Global};
use toml::value::Array;
use toml::{Table, Value};

const PARTITION_KEYS: [Key; 5] = [Key::Name, Key::Parent, Key::Budget, Key::Critical, Key::Max];

/// The most partitions of a scenario beside the root.
const MOST_PARTITIONS: usize = 31;

fn place_of(rows: &[PartitionRow], name: &Name) -> Option<usize>
    ensures { result ≡ partition_named rows.now name.now }
{
    rows.iter().position(|row| row.name.text() == name.text())
}

fn partition_of(rows: &[PartitionRow], value: &Value) -> Result<PartitionId, Kind>
    requires { length rows.now ≤ most_partitions }
    ensures is { result ≡ spec.partition_of rows.now (view value.now) }
    ensures within { IfOk result (λ p. p < length rows.now) }
{
    let name = name(value)?;
    match place_of(rows, &name) {
        Some(place) => Ok(PartitionId::at(place)),
        None => Err(Kind::UnknownName),
    }
}

/// The partition that a key names: the root where it isn't given.
pub fn partition_id_at(
    table: &Table,
    place: Place,
    key: Key,
    rows: &[PartitionRow],
) -> Result<PartitionId, Finding>
    requires some { 0 < length rows.now }
    requires few { length rows.now ≤ most_partitions }
    ensures is { result ≡ value_of (spec.row_partition key rows.now) place (table_view table.now) }
    ensures within { IfOk result (λ p. p < length rows.now) }
{
    let found = match value_at(table, key) {
        None => Ok(PartitionId::at(0)),
        Some(value) => partition_of(rows, value),
    };
    at_key(place, key, found)
}

fn is_partition(rows: &[PartitionRow], name: &Name) -> bool
    ensures { result ≡ spec.is_partition rows.now name.now }
{
    rows.iter().any(|row| name.text() == row.name.text())
}

/// The partition after these rows.
#[tactic(auto, unfolding(crate::specs::Partitions::partition_at))]
fn next_partition(parts: u16, rows: &[PartitionRow], value: &Value) -> Result<PartitionRow, Finding>
    requires some { 0 < length rows.now }
    requires few { length rows.now ≤ most_partitions }
    ensures is { result ≡ spec.next_partition parts rows.now (view value.now) }
    ensures parent { IfOk result (λ new. new.parent < length rows.now) }
    ensures funded { IfOk result (λ new. new.budget ≤ (row_or_none rows.now new.parent).budget) }
{
    let place = Place::Partition((rows.len() - 1) as u16);
    let table = table_of(place, value)?;
    only(&PARTITION_KEYS, place, table)?;
    let name = name_at(table, place, Key::Name, None)?;
    refuse_if(is_partition(rows, &name), Kind::Duplicate, place, Key::Name)?;
    partition_values(parts, rows, place, name, table)
}

/// The partition of this name, by its other keys: its budget is at most what its parent has left.
#[tactic(auto, unfolding(crate::specs::Partitions::partition_values))]
fn partition_values(
    parts: u16,
    rows: &[PartitionRow],
    place: Place,
    name: Name,
    table: &Table,
) -> Result<PartitionRow, Finding>
    requires some { 0 < length rows.now }
    requires few { length rows.now ≤ most_partitions }
    ensures is { result ≡ spec.partition_values parts rows.now place name (table_view table.now) }
    ensures parent { IfOk result (λ new. new.parent < length rows.now) }
    ensures funded { IfOk result (λ new. new.budget ≤ (row_or_none rows.now new.parent).budget) }
{
    let parent = partition_id_at(table, place, Key::Parent, rows)?;
    let most = u64::from(parts);
    let budget = integer_at(table, place, Key::Budget, 0, most, 1, None)?;
    let critical = integer_at(table, place, Key::Critical, 0, MOST_CRITICAL, 1, Some(0))?;
    let max = integer_at(table, place, Key::Max, budget, most, 1, Some(most))?;
    let left = u64::from(rows[parent.index()].budget);
    refuse_if(left < budget, Kind::BudgetOver, place, Key::Budget)?;
    Ok(PartitionRow {
        name,
        parent,
        budget: budget as u16,
        critical,
        max: max as u16,
    })
}

/// Adds a partition, which takes its budget from its parent.
fn add_partition(
    rows: &mut Vec<PartitionRow>,
    new: PartitionRow,
) -> Result<(), AllocFailed<PartitionRow>>
    requires parent { new.parent < length rows.old.items }
    requires funded { new.budget ≤ (row_or_none rows.old.items new.parent).budget }
    ensures { OnOk result (rows.new.items ≡ spec.rows_with_new rows.old.items new) }
{
    rows[new.parent.index()].budget -= new.budget;
    rows.push(new)
}

/// The name of the root.
pub fn system_name() -> Name
    ensures { result ≡ spec.system_name }
{
    let Ok(name) = Name::new(b"System") else {
        unreachable!()
    };
    name
}

fn system(alloc: Global, parts: u16) -> Result<Vec<PartitionRow>, NoMemory>
    ensures { IfOk result (λ rows. rows.items ≡ spec.system parts ∷ []) }
{
    let mut rows = Vec::new(alloc);
    rows.push(PartitionRow {
        name: system_name(),
        parent: PartitionId::at(0),
        budget: parts,
        critical: 0,
        max: parts,
    })?;
    Ok(rows)
}

/// The root and the partitions of these elements, each with the budget that is left to it.
fn partitions_of(alloc: Global, parts: u16, array: &Array) -> Result<Vec<PartitionRow>, Failure>
    requires { length array.now.items ≤ last_partition }
    ensures { ReadsOrFails (λ rows. rows.items) result (spec.partitions_from parts (spec.system parts ∷ []) (array_view array.now)) }
{
    let mut rows = system(alloc, parts)?;
    for value in array {
        let new = next_partition(parts, &rows, value)?;
        add_partition(&mut rows, new)?;
    }
    Ok(rows)
}

/// The partitions of the top table, the root first.
#[tactic(auto, unfolding(crate::specs::Partitions::partitions_at, crate::specs::Elements::read_each))]
pub fn partitions_at(alloc: Global, parts: u16, table: &Table) -> Result<Vec<PartitionRow>, Failure>
    ensures { ReadsOrFails (λ rows. rows.items) result (spec.partitions_at parts (table_view table.now)) }
{
    match tables_at(table, Place::Top, Key::Partition, MOST_PARTITIONS)? {
        Some(array) => partitions_of(alloc, parts, array),
        None => Ok(system(alloc, parts)?),
    }
}
