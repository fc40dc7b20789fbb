//! What is told of all partitions over the windows of a recorded history: one pass over its samples.
ghost use Rattle.std.specs.Prelude.{◌≡◌, ℕ, ◌<◌, ◌≤◌, length, slice_index_or, IfOk};
ghost use Rattle.aps_model.specs.After.{state_after};
ghost use Rattle.aps_model.specs.Legal.{IsLegal};
ghost use Rattle.aps_model.specs.Loaded.{finished_ticks};
ghost use Rattle.aps_model.specs.Shape.{IsShape};
ghost use Rattle.view_replay.specs.Retraced.{scenario_of_run};
ghost use Rattle.view_samples.specs.Pass.{IsAtTickBegin};
ghost use Rattle.view_shares.specs.Share.{counts_with, no_counts, no_share, share_with};
ghost use Rattle.view_shares.specs.Shares.{AreFewShares, AreUpTo, IsFew, tick_of_all};
ghost use Rattle.aps_model.specs.Limits.{last_tick, most_entries, most_partitions};

use crate::share::{Counts, Share};
use aps_model::limits::MOST_PARTITIONS;
use aps_model::{History, Nanos, NoMemory, Order, PartitionRow, Shape, finished_ticks};
use std::alloc::Global;
use view_samples::{Sample, Samples};

/// How many windows there are, and what is told of each of 32 partitions.
#[derive(Clone, Copy)]
pub struct Shares {
    pub counts: Counts,
    pub each: [Share; MOST_PARTITIONS],
}

/// The shares of all partitions over the finished ticks of a history, and the rows that it leaves.
#[derive(Drop)]
pub struct AllShares {
    pub shares: Shares,
    pub rows: Vec<PartitionRow>,
}

/// The shares of all partitions over the finished ticks of a history that is legal in this order of turns, and the rows that it
/// leaves, in one pass. `NoMemory` comes where memory runs out.
pub fn all_shares(alloc: Global, history: &History, order: Order) -> Result<AllShares, NoMemory>
    requires legal { IsLegal history.now.scenario order history.now.entries }
    requires few { length history.now.entries ≤ most_entries }
    ensures told { IfOk result (λ all. AreUpTo history.now.scenario history.now.entries
        (finished_ticks history.now.scenario.shape history.now.entries) all.shares) }
    ensures rows { IfOk result (λ all. all.rows.items ≡ (state_after history.now.scenario history.now.entries).rows) }
    ensures few { IfOk result (λ all. length all.rows.items ≤ most_partitions) }
{
    let mut samples = Samples::begin(alloc, history, order)?;
    let shares = shares_of(history, &mut samples);
    let rows = samples.last_rows(alloc, history)?;
    Ok(AllShares { shares, rows })
}

/// The same, by a pass that begins.
fn shares_of(history: &History, samples: &mut Samples) -> Shares
    requires at { IsAtTickBegin history.now.entries samples.old }
    requires of { scenario_of_run samples.old.cursor.core ≡ history.now.scenario }
    requires first { samples.old.tick ≡ 0 }
    ensures told { AreUpTo history.now.scenario history.now.entries (finished_ticks history.now.scenario.shape history.now.entries) result }
    ensures at { IsAtTickBegin history.now.entries samples.new }
    ensures of { scenario_of_run samples.new.cursor.core ≡ history.now.scenario }
{
    let shape = history.scenario().shape();
    let finished = finished_ticks(shape, history.entries());
    let turn = tick_of_all(shape);
    let mut shares = Shares::none();
    for _ in 0..finished {
        let sample = samples.next(history);
        shares.add(&sample, turn);
    }
    shares
}

/// The time of all processors in a tick, in ns.
pub fn tick_of_all(shape: &Shape) -> Nanos
    requires { IsShape shape.now }
    ensures { result ≡ tick_of_all shape.now }
{
    u64::from(shape.cpus) * shape.tick
}

impl Shares {
    /// Before the first window.
    fn none() -> Shares
        ensures counts { result.counts ≡ no_counts }
        ensures each { (p : ℕ) → p < most_partitions → slice_index_or result.each p no_share ≡ no_share }
    {
        Shares {
            counts: Counts::none(),
            each: [Share::none(); MOST_PARTITIONS],
        }
    }

    /// Adds the window of one sample more, where all processors have so much time in a tick (ns).
    fn add(&mut self, sample: &Sample, turn: Nanos)
        requires few { AreFewShares self.old }
        requires tick { sample.now.tick ≤ last_tick }
        ensures counts { self.new.counts ≡ counts_with self.old.counts sample.now }
        ensures each { (p : ℕ)
            → p < most_partitions
            → slice_index_or self.new.each p no_share ≡ share_with turn p (slice_index_or self.old.each p no_share) sample.now }
    {
        self.counts = self.counts.with(sample);
        self.each = each_with(&self.each, sample, turn);
    }
}

/// The share of each partition with one window more.
fn each_with(shares: &[Share; 32], sample: &Sample, turn: Nanos) -> [Share; 32]
    requires few { (p : ℕ) → p < most_partitions → IsFew (slice_index_or shares.now p no_share) }
    requires tick { sample.now.tick ≤ last_tick }
    ensures { (p : ℕ) → p < most_partitions
        → slice_index_or result p no_share ≡ share_with turn p (slice_index_or shares.now p no_share) sample.now }
{
    let mut all = [Share::none(); MOST_PARTITIONS];
    for p in 0..MOST_PARTITIONS {
        all[p] = shares[p].with(sample, p, turn);
    }
    all
}
