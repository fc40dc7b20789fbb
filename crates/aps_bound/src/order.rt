//! Whether entries are in order of ticks.
ghost use Rattle.std.specs.Prelude.{◌≡◌, ℕ, ◌+◌, ◌*◌, ◌/◌, ◌<◌, ◌≤◌, ◌↔◌, All, IsTrue};
ghost use Rattle.aps_model.specs.Due.{next_boundary};
ghost use Rattle.aps_model.specs.History.{IsEntry};
ghost use Rattle.aps_model.specs.Limits.{longest_tick};
ghost use Rattle.aps_bound.specs.Order.{IsBoundary, IsInOrder};

use aps_model::{Entry, Nanos};

/// Whether no entry ends before an earlier one, and each ends by the first boundary after its beginning.
pub fn is_in_order(entries: &[Entry], tick: u64) -> bool
    requires entries { All IsEntry entries.now }
    requires some { 0 < tick }
    requires short { tick ≤ longest_tick }
    ensures { IsTrue result ↔ IsInOrder tick entries.now }
{
    let mut last = 0;
    let mut boundary = 0;
    for e in entries {
        boundary = boundary_for(e, tick, boundary);
        if !follows(e, last, boundary) {
            return false;
        }
        last = e.to;
    }
    true
}

/// A boundary by which the entry ends if and only if it ends by the first one after its beginning. Where that is seen from
/// the boundary at hand it is this one, which costs no division.
#[inline(always)]
fn boundary_for(e: &Entry, tick: u64, at_hand: Nanos) -> Nanos
    requires entry { IsEntry e.now }
    requires some { 0 < tick }
    requires short { tick ≤ longest_tick }
    requires at_hand { IsBoundary tick at_hand }
    ensures same { (e.now.to ≤ result) ↔ (e.now.to ≤ next_boundary tick e.now.from) }
    ensures boundary { IsBoundary tick result }
{
    if e.to <= at_hand && at_hand <= e.from + tick {
        at_hand
    } else {
        (e.from / tick + 1) * tick
    }
}

/// Whether the entry may follow one that ended at this moment, where it has to end by this boundary.
#[inline(always)]
fn follows(e: &Entry, last: Nanos, boundary: Nanos) -> bool
    ensures { IsTrue result ↔ (last ≤ e.now.to) × (e.now.to ≤ boundary) }
{
    last <= e.to && e.to <= boundary
}
