//! The window of ticks, as the steps turn it, and how each partition stands by it.
ghost use Rattle.std.specs.Prelude.{◌≡◌, ◌≢◌, ℕ, ◌+◌, ◌-◌, ◌/◌, ◌<◌, ◌≤◌, ◌++◌, List, [], ◌∷◌, length, All, Some, true, false};
ghost use Rattle.aps_model.specs.declared.entry.Entry.{Entry as EntryOf};
ghost use Rattle.aps_model.specs.Budget.{has_standing};
ghost use Rattle.aps_model.specs.History.{IsEntry};
ghost use Rattle.aps_model.specs.Limits.{longest_tick, most_critical, most_partitions, most_ticks};
ghost use Rattle.aps_model.specs.Partition.{IsRow};
ghost use Rattle.aps_model.specs.Shape.{IsShape};
ghost use Rattle.aps_window.specs.Window.{advanced, resized, total_of};
ghost use Rattle.aps_core.specs.Counts.{CanBill, Counts, parts_in};
ghost use Rattle.aps_core.specs.Part.{part_of};
ghost use Rattle.aps_core.specs.Small.{IsSmall};

use aps_critical::standing;
use aps_model::{Entry, Nanos, PartFacts, PartitionId, PartitionRow, Shape, has_allowance};
use aps_window::Window;

/// The window goes on to this tick. The answer is whether it stood before it.
#[inline(always)]
pub fn go_on(window: &mut Window, tick: u64) -> bool
    requires forward { window.old.tick ≤ tick }
    requires few { tick ≤ most_ticks }
    ensures same { window.new ≡ advanced (tick - window.old.tick) window.old }
    ensures stays { result ≡ false → window.new ≡ window.old }
    ensures at_hand { result ≡ false → tick ≡ window.old.tick }
    ensures later { result ≡ true → window.old.tick < tick }
{
    let ticks = tick as u32 - window.tick();
    if ticks > 0 {
        window.advance(ticks);
    }
    ticks > 0
}

/// The window counts as many ticks as the shape says. It counted as many as it said before.
pub fn resize(window: &mut Window, before: u16, shape: &Shape)
    requires before { window.old.span ≡ before }
    requires shape { IsShape shape.now }
    ensures { window.new ≡ resized shape.now.window window.old }
{
    if shape.window != before {
        window.resize(shape.window);
    }
}

/// The tick of a moment that lies in the tick at hand or in the one before it.
#[inline(always)]
fn recent_tick(tick: u64, moment: Nanos, at_hand: u32) -> u32
    requires some { 0 < tick }
    requires short { tick ≤ longest_tick }
    requires past { moment / tick ≤ at_hand }
    requires recent { at_hand ≤ moment / tick + 1 }
    ensures { result ≡ moment / tick }
{
    if u64::from(at_hand) * tick <= moment {
        at_hand
    } else {
        at_hand - 1
    }
}

/// The window has the time of one entry more.
pub fn add_time(window: &mut Window, shape: &Shape, e: &Entry)
    requires shape { IsShape shape.now }
    requires entry { IsEntry e.now }
    requires room { CanBill shape.now.tick window.old e.now }
    ensures counts { (h : List EntryOf) (j : ℕ) → Counts shape.now h j window.old → Counts shape.now (h ++ e.now ∷ []) j window.new }
    ensures others { (p : ℕ) → e.now.billed ≢ Some p → total_of window.new p ≡ total_of window.old p }
{
    if let Some(p) = e.billed {
        if e.from < e.to {
            let tick = recent_tick(shape.tick, e.from, window.tick());
            window.bill_at(p, tick, e.to - e.from, e.critical);
        }
    }
}

/// The partition by its row, what it used, and whether it has critical budget left.
fn part_of(shape: &Shape, row: &PartitionRow, spent: Nanos, standing: bool) -> PartFacts
    requires shape { IsShape shape.now }
    requires row { IsRow row.now }
    requires few { spent ≤ most_critical }
    ensures same { (critical : ℕ) → standing ≡ has_standing critical row.now.critical → result ≡ part_of shape.now row.now spent critical }
    ensures small { IsSmall result }
{
    PartFacts {
        funded: has_allowance(spent, row.budget, shape),
        standing,
        shut: shape.limit && !has_allowance(spent, row.max, shape),
        used: spent,
        budget: row.budget,
    }
}

/// The partition of this number, which has this row, by what the window has of it.
pub fn part_by(shape: &Shape, row: &PartitionRow, window: &Window, p: PartitionId) -> PartFacts
    requires shape { IsShape shape.now }
    requires row { IsRow row.now }
    ensures same { result ≡ part_of shape.now row.now (total_of window.now p).billed (total_of window.now p).critical }
    ensures small { IsSmall result }
{
    part_of(
        shape,
        row,
        window.used(p),
        standing(window, p, row.critical),
    )
}

/// Each partition by its row and what the window has of it.
pub fn fill_parts(shape: &Shape, rows: &[PartitionRow], window: &Window, parts: &mut [PartFacts])
    requires shape { IsShape shape.now }
    requires few_rows { length rows.now ≤ most_partitions }
    requires rows { All IsRow rows.now }
    requires one_each { length parts.old ≡ length rows.now }
    ensures same { parts.new ≡ parts_in shape.now rows.now window.now }
    ensures small { All IsSmall parts.new }
{
    for p in 0..rows.len() {
        parts[p] = part_by(shape, &rows[p], window, PartitionId::at(p));
    }
}
