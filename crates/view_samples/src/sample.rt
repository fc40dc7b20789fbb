//! The sample of a finished tick.
ghost use Rattle.std.specs.Prelude.{◌≡◌, ℕ, ◌+◌, ◌≤◌, slice_index, nat_lt, not, ◌&&◌};
ghost use Rattle.aps_model.specs.After.{state_after};
ghost use Rattle.aps_model.specs.Limits.{last_tick};
ghost use Rattle.aps_model.specs.Loaded.{has_change};
ghost use Rattle.view_samples.specs.Lasts.{AreLasts};
ghost use Rattle.view_samples.specs.Note.{IsNote};
ghost use Rattle.view_samples.specs.Picks.{changes_in};
ghost use Rattle.view_samples.specs.Sample.{is_changed, of_each, sample_of};
ghost use Rattle.view_samples.specs.Window.{AreOfWindow};

use crate::lasts::Lasts;
use crate::note::Note;
use crate::sums::Sums;
use crate::truth::and_not_below;
use aps_model::limits::MOST_PARTITIONS;
use aps_model::{History, Nanos, Usage};

/// What is told of the window that ends with a finished tick: that tick, the window in ticks, and whether there are as many
/// ticks (`full`), and then no change stands in it (`unchanged`), nor has any of its picks a starved partition (`steady`).
/// Of each partition: what it used, what was critical of that, what it ran in free time and what its budget allows (ns),
/// whether the window is full and it had a candidate at each pick in it, and whether at some pick it wasn't in budget.
#[derive(Clone, Copy)]
pub struct Sample {
    pub tick: u64,
    pub window: u16,
    pub full: bool,
    pub unchanged: bool,
    pub steady: bool,
    pub usage: Usage,
    pub free: [Nanos; MOST_PARTITIONS],
    pub allowance: [Nanos; MOST_PARTITIONS],
    pub demand: [bool; MOST_PARTITIONS],
    pub had: [bool; MOST_PARTITIONS],
}

impl Sample {
    /// Whether the window is full, and a change lies in it.
    pub fn is_changed(&self) -> bool
        ensures { result ≡ is_changed self.now }
    {
        self.full && !self.unchanged
    }
}

/// The sample of tick `j`, of which this is the note, after all ticks up to it, and with the sums of its window.
pub fn sample_at(history: &History, note: &Note, lasts: &Lasts, sums: &Sums, j: u64) -> Sample
    requires note { IsNote history.now.scenario history.now.entries j note.now }
    requires lasts { AreLasts history.now.scenario history.now.entries (j + 1) lasts.now }
    requires sums { AreOfWindow history.now.scenario history.now.entries j sums.now }
    requires changes { (a b : ℕ)
        → has_change (state_after history.now.scenario history.now.entries).changes a b
        ≡ changes_in history.now.scenario history.now.entries a b }
    requires j { j ≤ last_tick }
    ensures { result ≡ sample_of history.now.scenario history.now.entries j }
{
    let end = j + 1;
    let window = u64::from(note.window);
    let first = end.saturating_sub(window);
    let full = window <= end;
    let unchanged = and_not_below(full, first, lasts.changed);
    Sample {
        tick: j,
        window: note.window,
        full,
        unchanged,
        steady: and_not_below(unchanged, first, lasts.starved),
        usage: sums.usage(),
        free: sums.free_time(),
        allowance: note.allowance,
        demand: since(&lasts.lacked, first, full),
        had: before_end(&lasts.out, first),
    }
}

/// Of each partition, whether this is so and no such tick came from `first` on.
fn since(lasts: &[u64; 32], first: u64, full: bool) -> [bool; 32]
    ensures { result ≡ of_each (λ p. full && not (nat_lt first (slice_index lasts.now p))) }
{
    let mut all = [false; MOST_PARTITIONS];
    for p in 0..MOST_PARTITIONS {
        all[p] = and_not_below(full, first, lasts[p]);
    }
    all
}

/// Of each partition, whether such a tick came from `first` on.
fn before_end(lasts: &[u64; 32], first: u64) -> [bool; 32]
    ensures { result ≡ of_each (λ p. nat_lt first (slice_index lasts.now p)) }
{
    let mut all = [false; MOST_PARTITIONS];
    for p in 0..MOST_PARTITIONS {
        all[p] = first < lasts[p];
    }
    all
}
