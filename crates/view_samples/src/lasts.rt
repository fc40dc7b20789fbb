//! The last ticks in which something was so, as ticks pass.
ghost use Rattle.std.specs.Prelude.{◌≡◌, ℕ, ◌+◌, ◌<◌, ◌≤◌, slice_index, slice_index_or, false, if◌then◌else◌};
ghost use Rattle.view_samples.specs.Passed.{IsPassed, later, no_lasts};
ghost use Rattle.aps_model.specs.Limits.{last_tick, most_partitions};

use crate::note::Note;
use aps_model::limits::MOST_PARTITIONS;

/// Of the ticks that have passed, the one after the last in which each partition had no candidate at some pick, the same for
/// one that wasn't in budget, for a pick with a starved partition, and for a change. It is 0 where there was none.
#[derive(Clone, Copy)]
pub struct Lasts {
    pub lacked: [u64; MOST_PARTITIONS],
    pub out: [u64; MOST_PARTITIONS],
    pub starved: u64,
    pub changed: u64,
}

impl Lasts {
    /// Before the first tick.
    pub fn none() -> Lasts
        ensures { result ≡ no_lasts }
    {
        Lasts {
            lacked: [0; MOST_PARTITIONS],
            out: [0; MOST_PARTITIONS],
            starved: 0,
            changed: 0,
        }
    }

    /// Tick `j` passes, of which this is the note.
    pub fn pass(&mut self, note: &Note, j: u64)
        requires { j ≤ last_tick }
        ensures { IsPassed j note.now self.old self.new }
    {
        self.lacked = all_later(&self.lacked, &note.lacking, j);
        self.out = all_later(&self.out, &note.out, j);
        self.starved = later(self.starved, note.starved, j);
        self.changed = later(self.changed, note.changed, j);
    }
}

/// Of each partition, the tick after `j` where it was so in that.
fn all_later(lasts: &[u64; 32], was: &[bool; 32], j: u64) -> [u64; 32]
    requires { j ≤ last_tick }
    ensures { (p : ℕ) → p < most_partitions → slice_index result p ≡ later (slice_index lasts.now p) (slice_index_or was.now p false) j }
{
    let mut all = [0; MOST_PARTITIONS];
    for p in 0..MOST_PARTITIONS {
        all[p] = later(lasts[p], was[p], j);
    }
    all
}

/// The tick after `j` where it was so in that.
fn later(last: u64, was: bool, j: u64) -> u64
    requires { j ≤ last_tick }
    ensures { result ≡ later last was j }
{
    if was { j + 1 } else { last }
}
