//! What a command that isn't refused does to the rows.
ghost use Rattle.std.specs.Prelude.{◌≡◌, ◌+◌, ◌-◌, ◌^◌, ◌<◌, ◌≤◌, length, None};
ghost use Rattle.aps_model.specs.Limits.{most_partitions};
ghost use Rattle.aps_model.specs.Partition.{partition_named, row_or_none};
ghost use Rattle.aps_model.specs.Tree.{rows_created, row_modified, rows_cancelled};
ghost use Rattle.aps_tree.specs.Changes.{parent_of, rows_with_child};

use crate::rows::Rows;
use aps_model::{PartitionId, PartitionRow};

/// Appends a row, to which its parent gives the budget.
pub fn add_child(rows: &mut Rows, row: PartitionRow)
    requires parent { row.parent < length rows.old }
    requires free { partition_named rows.old row.name ≡ None }
    requires room { length rows.old < most_partitions }
    requires covered { row.budget ≤ (row_or_none rows.old row.parent).budget }
    ensures { rows.new ≡ rows_created rows.old row.name row.parent row.budget row.critical row.max }
{
    let parent = row.parent;
    let giver = rows.row_of(parent);
    rows.set(
        parent,
        PartitionRow {
            budget: giver.budget - row.budget,
            ..giver
        },
    );
    rows.push(row);
}

/// Row `p` becomes this one, and its parent gives or gets back the difference of the budgets.
pub fn set_child(rows: &mut Rows, p: PartitionId, row: PartitionRow)
    requires place { p < length rows.old }
    requires parent { (row_or_none rows.old p).parent < length rows.old }
    requires name { row.name ≡ (row_or_none rows.old p).name }
    requires small { (parent_of rows.old p).budget + (row_or_none rows.old p).budget < 2 ^ 16 }
    requires covered { row.budget ≤ (parent_of rows.old p).budget + (row_or_none rows.old p).budget }
    ensures { rows.new ≡ rows_with_child rows.old p row }
{
    let old = rows.row_of(p);
    let giver = rows.row_of(old.parent);
    rows.set(old.parent, giving(&giver, old.budget, row.budget));
    rows.set(p, row);
}

/// The row with what is given in place of what it has.
pub fn row_modified(
    row: &PartitionRow,
    budget: Option<u16>,
    critical: Option<u64>,
    max: Option<u16>,
) -> PartitionRow
    ensures { result ≡ row_modified row.now budget critical max }
{
    PartitionRow {
        name: row.name,
        parent: row.parent,
        budget: budget.unwrap_or(row.budget),
        critical: critical.unwrap_or(row.critical),
        max: max.unwrap_or(row.max),
    }
}

/// The parent's row once a child has another budget.
pub fn giving(parent: &PartitionRow, old: u16, new: u16) -> PartitionRow
    requires old { parent.now.budget + old < 2 ^ 16 }
    requires new { new ≤ parent.now.budget + old }
    ensures { result ≡ record parent.now { budget = parent.now.budget + old - new } }
{
    PartitionRow {
        name: parent.name,
        parent: parent.parent,
        budget: parent.budget + old - new,
        critical: parent.critical,
        max: parent.max,
    }
}

/// Takes the critical budget of row `p` away.
pub fn clear_critical(rows: &mut Rows, p: PartitionId)
    requires { p < length rows.old }
    ensures { rows.new ≡ rows_cancelled rows.old p }
{
    let row = rows.row_of(p);
    rows.set(p, PartitionRow { critical: 0, ..row });
}
