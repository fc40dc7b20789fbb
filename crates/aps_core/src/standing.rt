//! How the partitions stand in the window, and the gates of that, kept from step to step.
ghost use Rattle.std.specs.Prelude.{◌≡◌, ◌<◌, ◌≤◌, ◌++◌, [], ◌∷◌, length, slice_set, All, IfOk, Some, true, false};
ghost use Rattle.aps_model.specs.Limits.{most_partitions};
ghost use Rattle.aps_model.specs.Partition.{IsRow};
ghost use Rattle.aps_model.specs.Shape.{IsShape};
ghost use Rattle.aps_ready.specs.Gates.{AreGates};
ghost use Rattle.aps_core.specs.Classes.{AreClasses};
ghost use Rattle.aps_core.specs.Counts.{parts_in};
ghost use Rattle.aps_core.specs.Small.{IsSmall};
ghost use Rattle.aps_core.specs.Standing.{DoOthersStand, OpensAlike};

use crate::classes::Classes;
use crate::usage::part_by;
use aps_model::limits::MOST_PARTITIONS;
use aps_model::{NoMemory, PartFacts, PartitionId, PartitionRow, Shape};
use aps_ready::Gates;
use aps_window::Window;
use std::alloc::Global;
use std::marker::Model;

/// Each partition as it stands, in the place of its number, the gates by which the ready threads are looked at, and the classes
/// of all threads.
/// Contracts see the row of partitions.
#[derive(Drop)]
pub struct Standing {
    parts: Vec<PartFacts>,
    gates: Gates,
    classes: Classes,
}

impl Model for Standing {
    ghost use Rattle.std.specs.Prelude.{List, vec_capacity};
    ghost use Rattle.aps_model.specs.declared.merit.PartFacts.{PartFacts};
    ghost use Rattle.aps_core.specs.Standing.{IsStanding};

    ghost Value = { List PartFacts };

    ghost view = { λ s. s.parts.items };

    ghost invariant = { λ s. IsStanding s.parts.items s.gates s.classes (vec_capacity s.parts) };
}

impl Standing {
    /// No partitions, and room for all.
    pub fn new(alloc: Global) -> Result<Standing, NoMemory>
        ensures { IfOk result (λ s. s ≡ []) }
    {
        Ok(Standing {
            parts: Vec::with_capacity(alloc, MOST_PARTITIONS)?,
            gates: Gates::none(),
            classes: Classes::none(),
        })
    }

    /// The partitions.
    #[inline(always)]
    pub fn parts(&self) -> &[PartFacts]
        ensures same { result.now ≡ self.now }
        ensures small { All IsSmall self.now }
        ensures few { length self.now ≤ most_partitions }
    {
        self.parts.as_slice()
    }

    /// The gates of them.
    #[inline(always)]
    pub fn gates(&self) -> Gates
        ensures { AreGates self.now result }
    {
        self.gates
    }

    /// The classes of their threads.
    #[inline(always)]
    pub fn classes(&self) -> Classes
        ensures { AreClasses self.now result }
    {
        self.classes
    }

    /// No partitions.
    fn clear(&mut self)
        ensures { self.new ≡ [] }
    {
        self.parts.clear();
        self.gates = Gates::none();
        self.classes = Classes::none();
    }

    /// One partition more.
    fn push(&mut self, part: PartFacts)
        requires room { length self.old < most_partitions }
        requires small { IsSmall part }
        ensures { self.new ≡ self.old ++ part ∷ [] }
    {
        let p = PartitionId::at(self.parts.len());
        self.gates.set(p, &part);
        self.classes.set(p, &part);
        self.parts.push_reserved(part);
    }

    /// The partition stands so, and each other as before. Where nothing changed that opens a gate, what it used is all that
    /// changes.
    #[inline(always)]
    fn set(&mut self, p: PartitionId, part: PartFacts)
        requires inside { p < length self.old }
        requires small { IsSmall part }
        ensures { self.new ≡ slice_set self.old p part }
    {
        let index = p.index();
        if opens_alike(&self.parts[index], &part) {
            self.parts[index].used = part.used;
        } else {
            self.set_anew(p, part);
        }
    }

    /// The same, whatever changed.
    #[inline(never)]
    fn set_anew(&mut self, p: PartitionId, next: PartFacts)
        requires inside { p < length self.old }
        requires small { IsSmall next }
        ensures { self.new ≡ slice_set self.old p next }
    {
        self.gates.set(p, &next);
        self.classes.set(p, &next);
        self.parts[p.index()] = next;
    }

    /// Each partition stands by its row and what the window has of it.
    pub fn fill(&mut self, shape: &Shape, rows: &[PartitionRow], window: &Window)
        requires shape { IsShape shape.now }
        requires few_rows { length rows.now ≤ most_partitions }
        requires rows { All IsRow rows.now }
        ensures { self.new ≡ parts_in shape.now rows.now window.now }
    {
        if rows.len() == self.parts.len() {
            return self.fill_again(shape, rows, window);
        }
        self.clear();
        for p in 0..rows.len() {
            self.push(part_by(shape, &rows[p], window, PartitionId::at(p)));
        }
    }

    /// The same, where there are as many partitions as before: most gates stay as they are.
    fn fill_again(&mut self, shape: &Shape, rows: &[PartitionRow], window: &Window)
        requires shape { IsShape shape.now }
        requires few_rows { length rows.now ≤ most_partitions }
        requires rows { All IsRow rows.now }
        requires count { length self.old ≡ length rows.now }
        ensures { self.new ≡ parts_in shape.now rows.now window.now }
    {
        // a copy, which what is set can't change
        let shape = *shape;
        for p in 0..rows.len() {
            let at = PartitionId::at(p);
            self.set(at, part_by(&shape, &rows[p], window, at));
        }
    }

    /// The same, where the others stand so already.
    pub fn fill_one(
        &mut self,
        shape: &Shape,
        rows: &[PartitionRow],
        window: &Window,
        p: PartitionId,
    )
        requires shape { IsShape shape.now }
        requires rows { All IsRow rows.now }
        requires others { DoOthersStand (Some p) shape.now rows.now window.now self.old }
        ensures { self.new ≡ parts_in shape.now rows.now window.now }
    {
        let index = p.index();
        if index < rows.len() {
            self.set(p, part_by(shape, &rows[index], window, p));
        }
    }
}

/// Whether the gates are the same for both.
#[inline(always)]
fn opens_alike(a: &PartFacts, b: &PartFacts) -> bool
    ensures yes { result ≡ true → OpensAlike a.now b.now }
    ensures no { result ≡ false → OpensAlike a.now b.now → ⊥ }
{
    a.funded == b.funded && a.standing == b.standing && a.shut == b.shut && a.budget == b.budget
}
