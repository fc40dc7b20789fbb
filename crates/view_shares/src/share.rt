//! What is told of one partition over all windows, one window after the other.
ghost use Rattle.std.specs.Prelude.{◌≡◌, ◌≤◌, ◌<◌, ◌&&◌, not};
ghost use Rattle.view_shares.specs.Share as spec;
ghost use Rattle.view_shares.specs.Shares.{AreFewCounts, IsFew};
ghost use Rattle.aps_model.specs.Limits.{last_tick, most_partitions};
ghost use Rattle.view_shares.specs.Share.{most_taken_by_one};

use aps_model::Nanos;
use aps_model::limits::MOST_PARTITIONS;
use view_samples::Sample;

/// What a partition used in a window and what its budget allowed there (ns), and the first tick of the window.
#[derive(Clone, Copy)]
pub struct Used {
    pub used: Nanos,
    pub allowance: Nanos,
    pub window: u64,
}

/// A time in a window (ns), and the first tick of the window.
#[derive(Clone, Copy)]
pub struct Amount {
    pub ns: Nanos,
    pub window: u64,
}

/// By how much a partition fell short of its allowance in a window, what the other partitions may take there (ns), and the
/// first tick of the window.
#[derive(Clone, Copy)]
pub struct Shortfall {
    pub ns: Nanos,
    pub others: u128,
    pub window: u64,
}

/// How many windows are full, how many of these are unchanged, and how many are steady.
#[derive(Clone, Copy)]
pub struct Counts {
    pub full: u64,
    pub unchanged: u64,
    pub steady: u64,
}

/// Of one partition: the first unchanged window in which it used most beyond its allowance; the first full windows in which it had
/// most free and most critical time; the first unchanged window in which it went furthest beyond all that it may take; in how many
/// unchanged windows it always had work, and in how many of these it had had its whole share at some moment; the first of them in
/// which it used least beyond its allowance; the first full window with a change in which it used most beyond its allowance; and
/// of those in which it never had had its share, the first in which it fell short most.
#[derive(Clone, Copy)]
pub struct Share {
    pub most: Option<Used>,
    pub free: Option<Amount>,
    pub critical: Option<Amount>,
    pub beyond: Option<Amount>,
    pub demand: u64,
    pub had: u64,
    pub least: Option<Used>,
    pub changed: Option<Used>,
    pub short: Option<Shortfall>,
}

impl Counts {
    /// Before the first window.
    pub fn none() -> Counts
        ensures { result ≡ spec.no_counts }
    {
        Counts {
            full: 0,
            unchanged: 0,
            steady: 0,
        }
    }

    /// The counts with one window more.
    pub fn with(&self, sample: &Sample) -> Counts
        requires { AreFewCounts self.now }
        ensures { result ≡ spec.counts_with self.now sample.now }
    {
        Counts {
            full: counted(self.full, sample.full),
            unchanged: counted(self.unchanged, sample.unchanged),
            steady: counted(self.steady, sample.steady),
        }
    }
}

/// One more where it is so.
fn counted(count: u64, is_so: bool) -> u64
    requires { count ≤ last_tick }
    ensures { result ≡ spec.counted_if count is_so }
{
    if is_so { count + 1 } else { count }
}

impl Share {
    /// Before the first window.
    pub fn none() -> Share
        ensures { result ≡ spec.no_share }
    {
        Share {
            most: None,
            free: None,
            critical: None,
            beyond: None,
            demand: 0,
            had: 0,
            least: None,
            changed: None,
            short: None,
        }
    }

    /// The share of partition `p` with one window more, where all processors have so much time in a tick (ns).
    pub fn with(&self, sample: &Sample, p: usize, turn: Nanos) -> Share
        requires p { p < most_partitions }
        requires few { IsFew self.now }
        requires tick { sample.now.tick ≤ last_tick }
        ensures { result ≡ spec.share_with turn p self.now sample.now }
    {
        let asked = both(sample.unchanged, sample.demand[p]);
        Share {
            most: most_with(self.most, used_in(sample, p), sample.unchanged),
            free: greatest_with(self.free, free_in(sample, p), sample.full),
            critical: greatest_with(self.critical, critical_in(sample, p), sample.full),
            beyond: greatest_with(self.beyond, beyond_in(sample, p), sample.unchanged),
            demand: counted(self.demand, asked),
            had: counted(self.had, both(asked, sample.had[p])),
            least: least_with(self.least, used_in(sample, p), asked),
            changed: most_with(self.changed, used_in(sample, p), sample.is_changed()),
            short: short_with(self.short, sample, p, turn, but_not(asked, sample.had[p])),
        }
    }
}

/// Whether both hold.
fn both(a: bool, b: bool) -> bool
    ensures { result ≡ (a && b) }
{
    a && b
}

/// Whether one holds and the other doesn't.
fn but_not(a: bool, b: bool) -> bool
    ensures { result ≡ (a && not b) }
{
    a && !b
}

/// The first tick of the window.
fn first_tick(sample: &Sample) -> u64
    requires { sample.now.tick ≤ last_tick }
    ensures { result ≡ spec.first_tick sample.now }
{
    (sample.tick + 1).saturating_sub(u64::from(sample.window))
}

/// What partition `p` used in the window.
fn used_in(sample: &Sample, p: usize) -> Used
    requires p { p < most_partitions }
    requires tick { sample.now.tick ≤ last_tick }
    ensures { result ≡ spec.used_in_sample p sample.now }
{
    Used {
        used: sample.usage.used[p],
        allowance: sample.allowance[p],
        window: first_tick(sample),
    }
}

/// The free time of partition `p` in the window.
fn free_in(sample: &Sample, p: usize) -> Amount
    requires p { p < most_partitions }
    requires tick { sample.now.tick ≤ last_tick }
    ensures { result ≡ spec.free_in p sample.now }
{
    Amount {
        ns: sample.free[p],
        window: first_tick(sample),
    }
}

/// The critical time of partition `p` in the window.
fn critical_in(sample: &Sample, p: usize) -> Amount
    requires p { p < most_partitions }
    requires tick { sample.now.tick ≤ last_tick }
    ensures { result ≡ spec.critical_in_sample p sample.now }
{
    Amount {
        ns: sample.usage.critical[p],
        window: first_tick(sample),
    }
}

/// What partition `p` used beyond its allowance, its critical time and its free time.
fn beyond_in(sample: &Sample, p: usize) -> Amount
    requires p { p < most_partitions }
    requires tick { sample.now.tick ≤ last_tick }
    ensures { result ≡ spec.beyond_in p sample.now }
{
    let beyond = sample.usage.used[p].saturating_sub(sample.allowance[p]);
    let ordinary = beyond.saturating_sub(sample.usage.critical[p]);
    Amount {
        ns: ordinary.saturating_sub(sample.free[p]),
        window: first_tick(sample),
    }
}

/// By how much partition `p` fell short, beside what the others may take.
fn shortfall_in(sample: &Sample, p: usize, turn: Nanos) -> Shortfall
    requires p { p < most_partitions }
    requires tick { sample.now.tick ≤ last_tick }
    ensures { result ≡ spec.shortfall_in turn p sample.now }
{
    Shortfall {
        ns: sample.allowance[p].saturating_sub(sample.usage.used[p]),
        others: others(sample, p, turn),
        window: first_tick(sample),
    }
}

/// The first of the greatest shortfalls, with that of partition `p` in this window where it counts.
fn short_with(
    best: Option<Shortfall>,
    sample: &Sample,
    p: usize,
    turn: Nanos,
    counts: bool,
) -> Option<Shortfall>
    requires p { p < most_partitions }
    requires tick { sample.now.tick ≤ last_tick }
    ensures { result ≡ spec.with_one spec.is_shorter best (spec.shortfall_in turn p sample.now) counts }
{
    // most windows count for nobody, and what the others may take is told of a window that counts alone
    if !counts {
        return best;
    }
    shortest_with(best, shortfall_in(sample, p, turn), counts)
}

/// What partitions other than `p` may take in the window.
fn others(sample: &Sample, p: usize, turn: Nanos) -> u128
    ensures { result ≡ spec.others_of turn p sample.now }
{
    let mut sum: u128 = 0;
    for q in 0..MOST_PARTITIONS {
        sum += taken_by(sample, p, q, turn);
    }
    sum
}

/// What partition `q` may take from partition `p` in the window: its critical time, and where it has an allowance one tick of
/// all processors. It takes nothing from itself.
fn taken_by(sample: &Sample, p: usize, q: usize, turn: Nanos) -> u128
    requires { q < most_partitions }
    ensures same { result ≡ spec.time_taken_by turn p sample.now q }
    ensures few { result ≤ most_taken_by_one }
{
    if q == p {
        return 0;
    }
    let critical = u128::from(sample.usage.critical[q]);
    if sample.allowance[q] == 0 {
        critical
    } else {
        critical + u128::from(turn)
    }
}

/// The first of the greatest use, with this one more where it counts.
fn most_with(best: Option<Used>, new: Used, counts: bool) -> Option<Used>
    ensures { result ≡ spec.with_one spec.is_more best new counts }
{
    match best {
        _ if !counts => best,
        Some(first) if !is_more(&new, &first) => Some(first),
        _ => Some(new),
    }
}

/// The first of the least use, with this one more where it counts.
fn least_with(best: Option<Used>, new: Used, counts: bool) -> Option<Used>
    ensures { result ≡ spec.with_one spec.is_less best new counts }
{
    match best {
        _ if !counts => best,
        Some(first) if !is_more(&first, &new) => Some(first),
        _ => Some(new),
    }
}

/// The first of the greatest amounts, with this one more where it counts.
fn greatest_with(best: Option<Amount>, new: Amount, counts: bool) -> Option<Amount>
    ensures { result ≡ spec.with_one spec.is_greater_amount best new counts }
{
    match best {
        _ if !counts => best,
        Some(first) if new.ns <= first.ns => Some(first),
        _ => Some(new),
    }
}

/// The first of the greatest shortfalls, with this one more where it counts.
fn shortest_with(best: Option<Shortfall>, new: Shortfall, counts: bool) -> Option<Shortfall>
    ensures { result ≡ spec.with_one spec.is_shorter best new counts }
{
    match best {
        _ if !counts => best,
        Some(first) if new.ns <= first.ns => Some(first),
        _ => Some(new),
    }
}

/// Whether one stands higher above its allowance, or less far below it, than the other.
fn is_more(a: &Used, b: &Used) -> bool
    ensures { result ≡ spec.is_more a.now b.now }
{
    u128::from(b.used) + u128::from(a.allowance) < u128::from(a.used) + u128::from(b.allowance)
}
