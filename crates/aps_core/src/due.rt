//! When a processor steps next, and in which tick a moment lies.
ghost use Rattle.std.specs.Prelude.{◌≡◌, ◌+◌, ◌/◌, ◌<◌, ◌≤◌, IfSome, nat_eq};
ghost use Rattle.std.specs.List.{list_any};
ghost use Rattle.aps_model.specs.declared.entry.Entry.{Entry as EntryOf};
ghost use Rattle.aps_model.specs.After.{stands_at};
ghost use Rattle.aps_model.specs.Due.{next_boundary, due_at, or_end};
ghost use Rattle.aps_model.specs.Limits.{last_moment, last_tick, longest_tick};
ghost use Rattle.aps_model.specs.Shape.{IsShape, horizon};
ghost use Rattle.aps_core.specs.Rising.{IsRising};

use aps_model::{Entry, Nanos, Shape};

/// Whether a processor's last entry ended at this moment.
pub fn stands_at(moment: Nanos, last: Option<Nanos>) -> bool
    ensures { result ≡ stands_at moment last }
{
    match last {
        None => false,
        Some(to) => to == moment,
    }
}

/// The tick of a moment. It costs no division where that is the tick at hand or the one before it.
#[inline(always)]
pub fn tick_of(tick: u64, moment: Nanos, at_hand: u64) -> u64
    requires some { 0 < tick }
    requires short { tick ≤ longest_tick }
    requires at_hand { at_hand ≤ last_tick }
    requires moment { moment ≤ last_moment }
    ensures { result ≡ moment / tick }
{
    let begun = at_hand * tick;
    if begun <= moment && moment < begun + tick {
        at_hand
    } else if moment < begun && begun <= moment + tick {
        at_hand - 1
    } else {
        moment / tick
    }
}

/// The first boundary after a moment, which lies in the tick at hand.
#[inline(always)]
fn next_boundary(tick: u64, moment: Nanos, at_hand: u64) -> Nanos
    requires some { 0 < tick }
    requires short { tick ≤ longest_tick }
    requires at_hand { at_hand ≡ moment / tick }
    requires moment { moment ≤ last_moment }
    ensures same { result ≡ next_boundary tick moment }
    ensures soon { result ≤ moment + tick }
{
    (at_hand + 1) * tick
}

/// When a processor steps next, by its flag, the end of its last entry, and what is left of its operation. The tick at hand
/// is that of the end of its last entry.
pub fn due_at(
    shape: &Shape,
    at_hand: u64,
    flag: Option<Nanos>,
    last: Option<Nanos>,
    left: Option<Nanos>,
) -> Nanos
    requires shape { IsShape shape.now }
    requires at_hand { IfSome last (λ to. at_hand ≡ to / shape.now.tick) }
    requires last { IfSome last (λ to. to ≤ last_moment) }
    ensures { result ≡ due_at shape.now.tick (horizon shape.now) flag last left }
{
    let Some(last) = last else {
        return 0;
    };
    if let Some(moment) = flag {
        return moment;
    }
    let boundary = next_boundary(shape.tick, last, at_hand);
    if last == shape.horizon() {
        return boundary;
    }
    or_end(boundary, last, left)
}

/// The boundary, or the earlier moment at which the operation ends that had so much left at this moment.
#[inline(always)]
fn or_end(boundary: Nanos, moment: Nanos, left: Option<Nanos>) -> Nanos
    requires { boundary ≤ 20000000000000 }
    ensures { result ≡ or_end boundary moment left }
{
    let end = match left {
        None => Nanos::MAX,
        Some(left) => moment.saturating_add(left),
    };
    boundary.min(end)
}

/// Whether an entry ended at this moment. It is found from the end of the history, where it stands.
pub fn is_met(entries: &[Entry], moment: Nanos) -> bool
    requires { IsRising entries.now }
    ensures { result ≡ list_any (λ (e : EntryOf). nat_eq e.to moment) entries.now }
{
    let mut left = entries.len();
    while left > 0 && entries[left - 1].to >= moment {
        left -= 1;
        if entries[left].to == moment {
            return true;
        }
    }
    false
}
