//! The tick of a moment, found without a division where it is known about where the moment lies.
#![tactic(auto)]

ghost use Rattle.std.specs.Prelude.{◌≡◌, ◌*◌, ◌/◌, ◌<◌, ◌≤◌};

/// The tick of a moment, where a tick has so many ns, or the window of it, where a window has: how many have gone by then.
/// It costs no division where that is the one at hand or one beside it.
#[inline(always)]
pub fn tick_of(length: u64, moment: u64, at_hand: u64) -> u64
    requires some { 0 < length }
    requires short { length ≤ 4000000000 }
    requires at_hand { at_hand * length ≤ 1000000000000000 }
    requires moment { moment ≤ 1000000000000000 }
    ensures same { result ≡ moment / length }
    ensures begun { result * length ≤ moment }
{
    let begun = at_hand * length;
    if begun <= moment {
        if moment < begun + length {
            at_hand
        } else if moment < begun + 2 * length {
            at_hand + 1
        } else {
            moment / length
        }
    } else if begun <= moment + length {
        at_hand - 1
    } else {
        moment / length
    }
}
