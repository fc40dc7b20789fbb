//! The intervals of the entries, billed to a window.
ghost use Rattle.std.specs.Prelude.{◌≡◌, ◌+◌, ◌/◌, ◌<◌, ◌≤◌, ◌⊎◌, ◌++◌, [], ◌∷◌, length, All, Some};
ghost use Rattle.aps_model.specs.Budget.{all_parts};
ghost use Rattle.aps_model.specs.Partition.{IsRow};
ghost use Rattle.aps_model.specs.Shape.{IsShape};
ghost use Rattle.aps_ready.specs.Small.{IsSmall};
ghost use Rattle.aps_live.specs.Part.{part_of};
ghost use Rattle.aps_live.specs.Tied.{FitsTicks, IsTied};
ghost use Rattle.aps_model.specs.Limits.{last_moment, longest_tick, longest_window, most_critical, most_partitions, shortest_tick};

use aps_model::limits::LONGEST_WINDOW;
use aps_model::{
    Entry, Nanos, PartFacts, PartitionId, PartitionRow, Shape, has_allowance, overlap,
};
use aps_window::Window;

/// How many ticks back a bill is kept.
const KEPT: u64 = LONGEST_WINDOW as u64;

/// The first tick to which an interval is billed: that in which it begins, or the oldest that is kept.
fn first_tick(from_tick: u64, now_tick: u64) -> u64
    requires { from_tick ≤ now_tick }
    ensures begun { from_tick ≤ result }
    ensures kept { now_tick < result + longest_window }
    ensures inside { result ≤ now_tick }
    ensures least { (result ≡ from_tick) ⊎ (result + 399 ≡ now_tick) }
{
    from_tick.max(now_tick.saturating_sub(KEPT - 1))
}

/// Bills the entry's interval, which comes after these entries: in each tick that it meets, of the last 400, the part
/// that lies in there. The window stands at the tick in which the entry ends.
pub fn bill_entry(window: &mut Window, _before: &[Entry], tick: u64, e: &Entry)
    requires tied { IsTied tick window.old _before.now }
    requires fits { FitsTicks tick (_before.now ++ e.now ∷ []) }
    requires some { shortest_tick ≤ tick }
    requires short { tick ≤ longest_tick }
    requires forward { e.now.from ≤ e.now.to }
    requires early { e.now.to ≤ last_moment }
    requires now { window.old.tick ≡ e.now.to / tick }
    ensures tied { IsTied tick window.new (_before.now ++ e.now ∷ []) }
    ensures tick { window.new.tick ≡ window.old.tick }
    ensures span { window.new.span ≡ window.old.span }
{
    if let Some(p) = e.billed {
        bill_ticks(window, _before, tick, e, p);
    }
}

/// The same, to this partition.
fn bill_ticks(window: &mut Window, _before: &[Entry], tick: u64, e: &Entry, p: PartitionId)
    requires tied { IsTied tick window.old _before.now }
    requires fits { FitsTicks tick (_before.now ++ e.now ∷ []) }
    requires some { shortest_tick ≤ tick }
    requires short { tick ≤ longest_tick }
    requires forward { e.now.from ≤ e.now.to }
    requires early { e.now.to ≤ last_moment }
    requires now { window.old.tick ≡ e.now.to / tick }
    requires billed { e.now.billed ≡ Some p }
    ensures tied { IsTied tick window.new (_before.now ++ e.now ∷ []) }
    ensures tick { window.new.tick ≡ window.old.tick }
    ensures span { window.new.span ≡ window.old.span }
{
    // the check wants the number of the partition to know its range
    let _number = p.index();
    let now_tick = e.to / tick;
    let first = first_tick(e.from / tick, now_tick);
    for k in first..now_tick + 1 {
        let ns = overlap(tick, k, k + 1, e.from, e.to);
        window.bill_at(p, k as u32, ns, e.critical);
    }
}

/// The partition by what it used in the window.
fn part_of(shape: &Shape, row: &PartitionRow, spent: Nanos, critical: Nanos) -> PartFacts
    requires shape { IsShape shape.now }
    requires row { IsRow row.now }
    requires spent { spent ≤ most_critical }
    ensures same { result ≡ part_of shape.now row.now spent critical }
    ensures small { IsSmall result }
{
    PartFacts {
        funded: has_allowance(spent, row.budget, shape),
        standing: critical < row.critical,
        shut: shape.limit && !has_allowance(spent, row.max, shape),
        used: spent,
        budget: row.budget,
    }
}

/// How each partition stands by the window, whose ticks are those that count at its own tick.
pub fn fill_parts(
    shape: &Shape,
    rows: &[PartitionRow],
    window: &Window,
    _before: &[Entry],
    _e: &Entry,
    parts: &mut [PartFacts],
)
    requires shape { IsShape shape.now }
    requires few_rows { length rows.now ≤ most_partitions }
    requires rows { All IsRow rows.now }
    requires one_each { length parts.old ≡ length rows.now }
    requires tied { IsTied shape.now.tick window.now (_before.now ++ _e.now ∷ []) }
    requires span { window.now.span ≡ shape.now.window }
    ensures same { parts.new ≡ all_parts shape.now rows.now (_before.now ++ _e.now ∷ []) window.now.tick }
    ensures small { All IsSmall parts.new }
    ensures length { length parts.new ≡ length parts.old }
{
    for p in 0..rows.len() {
        let id = PartitionId::at(p);
        parts[p] = part_of(shape, &rows[p], window.used(id), window.critical_used(id));
    }
}
