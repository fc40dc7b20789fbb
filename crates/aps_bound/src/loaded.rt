//! Since when all finished ticks are steady.
ghost use Rattle.std.specs.Prelude.{◌≡◌, ℕ, ◌+◌, ◌<◌, ◌≤◌, ◌/◌, ◌&&◌, ◌||◌, is_some, nat_lt, true};
ghost use Rattle.aps_model.specs.Limits.{last_tick};
ghost use Rattle.aps_model.specs.Loaded.{finished_ticks, has_change, has_starved, is_among, loaded_tick};
ghost use Rattle.aps_model.specs.Shape.{IsShape};
ghost use Rattle.aps_bound.specs.Order.{IsInOrder};

use aps_model::{Change, Entry, Shape};

/// The least tick from which all of the `count` finished ticks are steady. It is told whether the entries are in order of
/// ticks.
pub fn loaded_tick(
    shape: &Shape,
    entries: &[Entry],
    changes: &[Change],
    count: u64,
    is_in_order: bool,
) -> u64
    requires shape { IsShape shape.now }
    requires order { is_in_order ≡ true → IsInOrder shape.now.tick entries.now }
    requires count { count ≡ finished_ticks shape.now entries.now }
    requires few { count ≤ last_tick }
    ensures same { result ≡ loaded_tick shape.now entries.now changes.now }
    ensures finished { result ≤ count }
{
    after_changes(changes, count).max(after_starved(shape.tick, entries, count, is_in_order))
}

/// The tick after the last change that stands at a finished tick, or 0.
fn after_changes(changes: &[Change], count: u64) -> u64
    requires { count ≤ last_tick }
    ensures same { (s : ℕ) → has_change changes.now s count ≡ nat_lt s result }
    ensures finished { result ≤ count }
{
    let mut after = 0;
    for change in changes {
        after = later(after, u64::from(change.tick), count);
    }
    after
}

/// The tick after the last finished one that has a pick with a starved partition, or 0. It is told whether the entries are
/// in order of ticks.
fn after_starved(tick: u64, entries: &[Entry], count: u64, is_in_order: bool) -> u64
    requires tick { 0 < tick }
    requires few { count ≤ last_tick }
    requires order { is_in_order ≡ true → IsInOrder tick entries.now }
    ensures same { (s : ℕ) → has_starved tick entries.now s count ≡ nat_lt s result }
    ensures finished { result ≤ count }
{
    if is_in_order {
        after_last_starved(tick, entries, count)
    } else {
        after_each_starved(tick, entries, count)
    }
}

/// The same, in whatever order the entries stand.
fn after_each_starved(tick: u64, entries: &[Entry], count: u64) -> u64
    requires tick { 0 < tick }
    requires few { count ≤ last_tick }
    ensures same { (s : ℕ) → has_starved tick entries.now s count ≡ nat_lt s result }
    ensures finished { result ≤ count }
{
    let mut after = 0;
    for e in entries {
        if e.starved.is_some() {
            after = later(after, e.to / tick, count);
        }
    }
    after
}

/// The same, where the entries are in order of ticks: it is found from the end of the history, at the first such pick.
fn after_last_starved(tick: u64, entries: &[Entry], count: u64) -> u64
    requires tick { 0 < tick }
    requires few { count ≤ last_tick }
    requires order { IsInOrder tick entries.now }
    ensures same { (s : ℕ) → has_starved tick entries.now s count ≡ nat_lt s result }
    ensures finished { result ≤ count }
{
    let mut left = entries.len();
    while left > 0 {
        left -= 1;
        if is_starved_before(&entries[left], tick, count) {
            return entries[left].to / tick + 1;
        }
    }
    0
}

/// Whether the entry has a pick with a starved partition, and that at one of the `count` finished ticks.
#[inline(always)]
fn is_starved_before(e: &Entry, tick: u64, count: u64) -> bool
    requires { 0 < tick }
    ensures { result ≡ (is_some e.now.starved && nat_lt (e.now.to / tick) count) }
{
    e.starved.is_some() && e.to / tick < count
}

/// The later of what was found so far and the tick after this one, where that is finished.
fn later(after: u64, tick: u64, count: u64) -> u64
    requires finished { after ≤ count }
    requires few { count ≤ last_tick }
    ensures same { (s : ℕ) → nat_lt s result ≡ (nat_lt s after || is_among s count tick) }
    ensures finished { result ≤ count }
{
    if tick < count {
        after.max(tick + 1)
    } else {
        after
    }
}
