//! What is noted of one tick.
ghost use Rattle.std.specs.Prelude.{◌≡◌, ℕ, ◌<◌, ◌≤◌, ◌/◌, ◌*◌, ◌||◌, All, slice_index, slice_index_or, false};
ghost use Rattle.aps_model.specs.Audit.{allowance};
ghost use Rattle.aps_model.specs.Limits.{most_partitions, thousandths};
ghost use Rattle.aps_model.specs.Partition.{IsRow, row_or_none};
ghost use Rattle.aps_model.specs.Shape.{IsShape};
ghost use Rattle.aps_core.specs.Run.{state_of_run};
ghost use Rattle.view_samples.specs.Note.{IsLookAdded, IsFreshNote, no_note};

use crate::look::Look;
use crate::truth::or;
use aps_core::Core;
use aps_model::limits::MOST_PARTITIONS;
use aps_model::{Nanos, PartitionRow, Shape};

/// Of a tick: its window (ticks), what the budget of each partition allows in that (ns), which partitions had no candidate
/// at some pick, which weren't in budget at some pick, whether some pick had a starved partition, and whether some step made
/// a change.
#[derive(Clone, Copy)]
pub struct Note {
    pub window: u16,
    pub allowance: [Nanos; MOST_PARTITIONS],
    pub lacking: [bool; MOST_PARTITIONS],
    pub out: [bool; MOST_PARTITIONS],
    pub starved: bool,
    pub changed: bool,
}

impl Note {
    /// The note of no tick.
    pub fn none() -> Note
        ensures { result ≡ no_note }
    {
        Note {
            window: 0,
            allowance: [0; MOST_PARTITIONS],
            lacking: [false; MOST_PARTITIONS],
            out: [false; MOST_PARTITIONS],
            starved: false,
            changed: false,
        }
    }

    /// The note of a tick that begins as the core stands.
    pub fn fresh(core: &Core) -> Note
        ensures { IsFreshNote (state_of_run core.now) result }
    {
        let history = core.history();
        let shape = history.shape();
        Note {
            window: shape.window,
            allowance: allowances(shape, history.rows()),
            lacking: [false; MOST_PARTITIONS],
            out: [false; MOST_PARTITIONS],
            starved: false,
            changed: false,
        }
    }

    /// Adds the look at a pick.
    pub fn add(&mut self, look: &Look)
        ensures { IsLookAdded look.now self.old self.new }
    {
        self.lacking = either(&self.lacking, &look.lacking);
        self.out = either(&self.out, &look.out);
        self.starved = or(self.starved, look.starved);
        self.changed = or(self.changed, look.changed);
    }
}

/// Of each partition, whether one or the other holds.
fn either(a: &[bool; 32], b: &[bool; 32]) -> [bool; 32]
    ensures { (p : ℕ) → p < most_partitions
        → slice_index_or result p false ≡ (slice_index_or a.now p false || slice_index_or b.now p false) }
{
    let mut all = [false; MOST_PARTITIONS];
    for p in 0..MOST_PARTITIONS {
        all[p] = or(a[p], b[p]);
    }
    all
}

/// What the budget of each partition allows in a window, in ns; 0 where it doesn't exist.
fn allowances(shape: &Shape, rows: &[PartitionRow]) -> [Nanos; 32]
    requires shape { IsShape shape.now }
    requires rows { All IsRow rows.now }
    ensures { (p : ℕ) → p < most_partitions → slice_index result p ≡ allowance shape.now (row_or_none rows.now p).budget }
{
    let mut allowed = [0; MOST_PARTITIONS];
    for p in 0..MOST_PARTITIONS {
        allowed[p] = allowance_at(shape, rows, p);
    }
    allowed
}

fn allowance_at(shape: &Shape, rows: &[PartitionRow], p: usize) -> Nanos
    requires shape { IsShape shape.now }
    requires rows { All IsRow rows.now }
    ensures { result ≡ allowance shape.now (row_or_none rows.now p).budget }
{
    match rows.get(p) {
        Some(row) => allowance(shape, row.budget),
        None => 0,
    }
}

/// The time that a budget allows in a window, in ns.
fn allowance(shape: &Shape, budget: u16) -> Nanos
    requires shape { IsShape shape.now }
    requires budget { budget ≤ thousandths }
    ensures { result ≡ allowance shape.now budget }
{
    u64::from(budget) * shape.whole() / u64::from(shape.parts)
}
