//! The partitions as an array of tables.
ghost use Rattle.std.specs.Prelude.{◌≡◌, ◌<◌, ◌≤◌, length, IfOk, OnOk, All};
ghost use Rattle.toml.specs.Data as values;
ghost use Rattle.toml.specs.Data.{no_members};
ghost use Rattle.toml.specs.View.{view, table_view};
ghost use Rattle.aps_model.specs.declared.partition.PartitionRow.{PartitionRow as Row};
ghost use Rattle.aps_scenario.specs.PrintedTree as tree;
ghost use Rattle.aps_scenario.specs.PrintedPartitions.{partition_table, partition_array};
ghost use Rattle.aps_scenario.specs.PrintedTable.{array_of_each};
ghost use Rattle.aps_model.specs.Limits.{most_critical};

use crate::key::Key;
use crate::printing::table::{put_number, put_text};
use crate::printing::words::text_of;
use aps_model::{NoMemory, PartitionRow, Scenario};
use std::alloc::Global;
use toml::{Table, Value};

/// The rows with the budgets that a text gives them: from the last row to the first, each gives its budget back to
/// its parent.
fn listed_rows(alloc: Global, scenario: &Scenario) -> Result<Vec<PartitionRow>, NoMemory>
    ensures { IfOk result (λ rows. rows.items ≡ tree.listed_rows scenario.now.partitions) }
{
    let rows = scenario.partitions();
    let mut listed = Vec::new(alloc);
    listed.extend_from_slice(rows)?;
    let mut child = rows.len() - 1;
    while child > 0 {
        let budget = listed[child].budget;
        let parent = listed[child].parent.index();
        listed[parent].budget += budget;
        child -= 1;
    }
    Ok(listed)
}

/// Puts the keys of a partition into an empty table.
fn put_partition(
    alloc: Global,
    table: &mut Table,
    rows: &[PartitionRow],
    row: &PartitionRow,
) -> Result<(), NoMemory>
    requires parent { row.now.parent < length rows.now }
    requires critical { row.now.critical ≤ most_critical }
    requires empty { table_view table.old ≡ no_members }
    ensures { OnOk result (values.table (table_view table.new) ≡ partition_table rows.now row.now) }
{
    let parent = text_of(&rows[row.parent.index()].name);
    put_text(alloc, table, Key::Name, text_of(&row.name))?;
    put_text(alloc, table, Key::Parent, parent)?;
    put_number(alloc, table, Key::Budget, u64::from(row.budget))?;
    put_number(alloc, table, Key::Critical, row.critical)?;
    put_number(alloc, table, Key::Max, u64::from(row.max))
}

fn partition_value(
    alloc: Global,
    rows: &[PartitionRow],
    row: &PartitionRow,
) -> Result<Value, NoMemory>
    requires parent { row.now.parent < length rows.now }
    requires critical { row.now.critical ≤ most_critical }
    ensures { IfOk result (λ value. view value ≡ partition_table rows.now row.now) }
{
    let mut table = Table::new(alloc);
    put_partition(alloc, &mut table, rows, row)?;
    Ok(Value::Table(table))
}

fn rows_value(
    alloc: Global,
    rows: &[PartitionRow],
    listed: &[PartitionRow],
) -> Result<Value, NoMemory>
    requires parents { All (λ (row : Row). row.parent < length rows.now) listed.now }
    requires criticals { All (λ (row : Row). row.critical ≤ most_critical) listed.now }
    ensures { IfOk result (λ value. view value ≡ array_of_each (partition_table rows.now) listed.now) }
{
    let mut values = Vec::new(alloc);
    for row in listed {
        values.push(partition_value(alloc, rows, row)?)?;
    }
    Ok(Value::Array(values))
}

/// All partitions but the root as an array of tables.
pub fn partitions_value(alloc: Global, scenario: &Scenario) -> Result<Value, NoMemory>
    ensures { IfOk result (λ value. view value ≡ partition_array scenario.now.partitions) }
{
    let listed = listed_rows(alloc, scenario)?;
    rows_value(alloc, scenario.partitions(), &listed[1..])
}
