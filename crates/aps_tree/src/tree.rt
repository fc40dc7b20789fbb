//! The tree of a run, and the calls that change it.
ghost use lib.Chars.{codes};
ghost use Rattle.std.specs.Prelude.{◌≡◌, ◌+◌, ◌-◌, ◌^◌, ◌<◌, ◌≤◌, ◌⊎◌, [], ◌∷◌, length, slice_get, IfOk, IfSome};
ghost use Rattle.aps_model.specs.Limits.{percent, thousandths};
ghost use Rattle.aps_model.specs.Partition.{AreRows, partition_named, row_or_none};
ghost use Rattle.aps_model.specs.Tree.{create_refusal, rows_created, modify_refusal, rows_modified, rows_cancelled};
ghost use Rattle.laws_runs.specs.Rows.{IsNamedTree};
ghost use Rattle.aps_tree.specs.Changes.{parent_of, rows_with_child};
ghost use Rattle.aps_tree.specs.Refusals.{max_refusal};
ghost use Rattle.aps_tree.specs.Tree.{IsBudgetTree, root_row, unless_refused, rows_unless_refused};

use crate::changes::{add_child, clear_critical, giving, row_modified, set_child};
use crate::rows::Rows;
use aps_model::limits::{MOST_CRITICAL, MOST_PARTITIONS};
use aps_model::{Name, NoMemory, PartitionId, PartitionRow, TreeRefusal};
use std::alloc::Global;
use std::marker::Model;

/// The partitions of a run, `System` first, with the budgets that are left to them. Contracts see the parts in which
/// budgets and maxima count, and the rows in order of their ids. The type keeps that names are distinct, that each
/// parent stands before its children, that budgets sum to the parts, and that each budget is at most its maximum and
/// each maximum at most the parts. Room for 32 rows is taken when a tree is made; no other call takes memory.
pub struct Tree {
    parts: u16,
    rows: Rows,
}

// Written out, so that it is proved here alone: a derived drop is proved again in each crate that lets a value go.
impl Drop for Tree {
    fn drop(self) {
        let Self { parts: _, rows: _ } = self;
    }
}

impl Model for Tree {
    ghost use Rattle.aps_tree.specs.Changes.{parent_of, rows_with_child};
    ghost use Rattle.aps_tree.specs.Refusals.{max_refusal};
    ghost use Rattle.aps_tree.specs.Tree.{Tree as Plain};

    ghost Value = { Plain };

    ghost use Rattle.aps_tree.specs.TreeView.{tree_of, KeepsTree};

    ghost view = { tree_of };

    ghost invariant = { KeepsTree };
}

impl Tree {
    /// `System` alone, with all parts, 100 or 1,000, as its budget and its maximum, and no critical budget. `NoMemory`
    /// comes where there is no room for 32 rows.
    pub fn new(alloc: Global, parts: u16) -> Result<Tree, NoMemory>
        requires { (parts ≡ percent) ⊎ (parts ≡ thousandths) }
        ensures { IfOk result (λ tree. tree ≡ record { parts = parts; rows = root_row parts ∷ [] }) }
    {
        let mut rows = Rows::new(alloc)?;
        rows.push(PartitionRow {
            name: system_name(),
            parent: PartitionId::at(0),
            budget: parts,
            critical: 0,
            max: parts,
        });
        Ok(Tree { parts, rows })
    }

    /// The tree that has exactly these rows, whose budgets sum to the parts, 100 or 1,000. `NoMemory` comes where there
    /// is no room for 32 rows.
    pub fn of_rows(alloc: Global, parts: u16, rows: &[PartitionRow]) -> Result<Tree, NoMemory>
        requires parts { (parts ≡ percent) ⊎ (parts ≡ thousandths) }
        requires named { IsNamedTree rows.now }
        requires funded { AreRows parts rows.now }
        ensures { IfOk result (λ tree. tree ≡ record { parts = parts; rows = rows.now }) }
    {
        let mut copy = Rows::new(alloc)?;
        for row in rows {
            copy.push(*row);
        }
        Ok(Tree { parts, rows: copy })
    }

    /// The rows, in order of their ids.
    pub fn rows(&self) -> &[PartitionRow]
        ensures same { result.now ≡ self.now.rows }
        ensures keeps { IsBudgetTree self.now }
    {
        self.rows.as_slice()
    }

    /// How many partitions there are, 1 to 32.
    pub fn count(&self) -> u8
        ensures same { result ≡ length self.now.rows }
        ensures keeps { IsBudgetTree self.now }
    {
        self.rows.as_slice().len() as u8
    }

    /// The partition with this name. There is none exactly where no partition has the name.
    pub fn lookup(&self, name: Name) -> Option<PartitionId>
        ensures same { result ≡ partition_named self.now.rows name }
        ensures used { IfSome result (λ p. p < length self.now.rows) }
    {
        match self.rows.place_of(name) {
            None => None,
            Some(place) => Some(PartitionId::at(place)),
        }
    }

    /// The row of a partition. There is none exactly where the id is unused.
    pub fn row(&self, p: PartitionId) -> Option<PartitionRow>
        ensures { result ≡ slice_get self.now.rows p }
    {
        match self.rows.as_slice().get(p.index()) {
            None => None,
            Some(row) => Some(*row),
        }
    }

    /// A new partition under the parent, which gives it its budget. Budgets and maxima are parts, the critical budget
    /// ns. The answer is its id. It is refused, by the first of these, with `NoSuchPartition` exactly where the parent's
    /// id is unused, `NameTaken` where the name is taken, `TooMany` where 32 partitions exist, `OverBudget` where the
    /// budget exceeds the parent's, `BadCritical` where the critical budget exceeds 64,000,000,000 ns, and `BadMax`
    /// where the maximum is below the budget or above the parts; then nothing changes.
    pub fn create(
        &mut self,
        name: Name,
        parent: PartitionId,
        budget: u16,
        critical: u64,
        max: u16,
    ) -> Result<PartitionId, TreeRefusal>
        ensures answer { result ≡ unless_refused (create_refusal self.old.parts self.old.rows name parent budget critical max)
            (length self.old.rows) }
        ensures rows { self.new.rows ≡ rows_unless_refused
            (create_refusal self.old.parts self.old.rows name parent budget critical max) self.old.rows
            (rows_created self.old.rows name parent budget critical max) }
        ensures parts { self.new.parts ≡ self.old.parts }
        ensures keeps { IsBudgetTree self.new }
    {
        // by this call the check knows of the text that it is a name
        let _text = name.text();
        let row = PartitionRow {
            name,
            parent,
            budget,
            critical,
            max,
        };
        if let Some(why) = self.create_refusal(&row) {
            return Err(why);
        }
        let id = PartitionId::at(self.rows.as_slice().len());
        add_child(&mut self.rows, row);
        Ok(id)
    }

    /// Why the row can't be created, by the first cause.
    fn create_refusal(&self, row: &PartitionRow) -> Option<TreeRefusal>
        ensures { result
            ≡ create_refusal self.now.parts self.now.rows row.now.name row.now.parent row.now.budget row.now.critical row.now.max }
    {
        let rows = self.rows.as_slice();
        if rows.len() <= row.parent.index() {
            return Some(TreeRefusal::NoSuchPartition);
        }
        if self.rows.place_of(row.name).is_some() {
            return Some(TreeRefusal::NameTaken);
        }
        if rows.len() >= MOST_PARTITIONS {
            return Some(TreeRefusal::TooMany);
        }
        let have = self.rows.row_of(row.parent).budget;
        if have < row.budget {
            return Some(TreeRefusal::OverBudget { have });
        }
        if row.critical > MOST_CRITICAL {
            return Some(TreeRefusal::BadCritical);
        }
        if row.max < row.budget || row.max > self.parts {
            return Some(TreeRefusal::BadMax {
                partition: PartitionId::at(rows.len()),
                least: row.budget,
            });
        }
        None
    }

    /// What is given takes the place of what the partition has; its parent gives the rise of its budget, or gets back
    /// what it gives up. It is refused, by the first of these, with `NoSuchPartition` exactly where the id is unused,
    /// `NoParent` where a budget is given for `System`, `OverBudget` where the rise exceeds the parent's budget,
    /// `BadCritical` where the given critical budget exceeds 64,000,000,000 ns, and `BadMax` where the partition's
    /// maximum would be below its budget, then where the parent's would, then where the given maximum is above the
    /// parts; then nothing changes.
    pub fn modify(
        &mut self,
        p: PartitionId,
        budget: Option<u16>,
        critical: Option<u64>,
        max: Option<u16>,
    ) -> Result<(), TreeRefusal>
        ensures answer { result ≡ unless_refused (modify_refusal self.old.parts self.old.rows p budget critical max) tt }
        ensures rows { self.new.rows ≡ rows_unless_refused
            (modify_refusal self.old.parts self.old.rows p budget critical max) self.old.rows
            (rows_modified self.old.rows p budget critical max) }
        ensures parts { self.new.parts ≡ self.old.parts }
        ensures keeps { IsBudgetTree self.new }
    {
        if let Some(why) = self.modify_refusal(p, budget, critical, max) {
            return Err(why);
        }
        let after = row_modified(&self.rows.row_of(p), budget, critical, max);
        set_child(&mut self.rows, p, after);
        Ok(())
    }

    /// Why the partition can't be modified, by the first cause.
    fn modify_refusal(
        &self,
        p: PartitionId,
        budget: Option<u16>,
        critical: Option<u64>,
        max: Option<u16>,
    ) -> Option<TreeRefusal>
        ensures { result ≡ modify_refusal self.now.parts self.now.rows p budget critical max }
    {
        if self.rows.as_slice().len() <= p.index() {
            return Some(TreeRefusal::NoSuchPartition);
        }
        if budget.is_some() && p.index() == 0 {
            return Some(TreeRefusal::NoParent);
        }
        let row = self.rows.row_of(p);
        let after = row_modified(&row, budget, critical, max);
        let giver = self.rows.row_of(row.parent);
        if giver.budget < after.budget.saturating_sub(row.budget) {
            return Some(TreeRefusal::OverBudget { have: giver.budget });
        }
        if critical.unwrap_or(0) > MOST_CRITICAL {
            return Some(TreeRefusal::BadCritical);
        }
        max_refusal(
            self.parts,
            p,
            &after,
            row.parent,
            &self.parent_after(p, &after),
            max,
        )
    }

    /// The row of the partition's parent once the partition's own is this one, which is the same where it is its own
    /// parent.
    fn parent_after(&self, p: PartitionId, after: &PartitionRow) -> PartitionRow
        requires place { p < length self.now.rows }
        requires covered { after.now.budget ≤ (parent_of self.now.rows p).budget + (row_or_none self.now.rows p).budget }
        ensures { result ≡ row_or_none (rows_with_child self.now.rows p after.now) (row_or_none self.now.rows p).parent }
    {
        let row = self.rows.row_of(p);
        if row.parent.index() == p.index() {
            *after
        } else {
            giving(&self.rows.row_of(row.parent), row.budget, after.budget)
        }
    }

    /// Takes the critical budget of a partition away, whose id must be used. Nothing else changes.
    pub fn cancel(&mut self, p: PartitionId)
        requires { p < length self.old.rows }
        ensures rows { self.new.rows ≡ rows_cancelled self.old.rows p }
        ensures parts { self.new.parts ≡ self.old.parts }
        ensures keeps { IsBudgetTree self.new }
    {
        clear_critical(&mut self.rows, p);
    }
}

/// The name of the root.
fn system_name() -> Name
    ensures { result ≡ codes "System" }
{
    Name::new(b"System").unwrap()
}

/// Why the maxima forbid it that a partition's row and its parent's become these, by the first cause.
fn max_refusal(
    parts: u16,
    p: PartitionId,
    row: &PartitionRow,
    parent: PartitionId,
    parent_row: &PartitionRow,
    max: Option<u16>,
) -> Option<TreeRefusal>
    ensures { result ≡ max_refusal parts p row.now parent parent_row.now max }
{
    if row.budget > row.max {
        return Some(TreeRefusal::BadMax {
            partition: p,
            least: row.budget,
        });
    }
    if parent_row.budget > parent_row.max {
        return Some(TreeRefusal::BadMax {
            partition: parent,
            least: parent_row.budget,
        });
    }
    if max.unwrap_or(0) > parts {
        return Some(TreeRefusal::BadMax {
            partition: p,
            least: row.budget,
        });
    }
    None
}
