//! The class and the priority of the greatest candidate, told by levels alone.
ghost use Rattle.std.specs.Prelude.{◌≡◌, ◌-◌, ◌<◌};
ghost use Rattle.aps_model.specs.Limits.{greatest_priority};
ghost use Rattle.aps_levels.specs.Bits.{set_has};
ghost use Rattle.aps_levels.specs.Levels.{level_count};
ghost use Rattle.aps_ready.specs.Highest.{IsHighest};
ghost use Rattle.aps_ready.specs.Ready.{IsQueued};

use crate::lists::Lists;
use aps_levels::Bits64;

/// What the greatest candidate is ahead by: its class, and its priority. Where it is of class 0 and free time goes by ratio, nothing
/// is said of the priority here.
#[derive(Clone, Copy, PartialEq, Eq)]
pub struct Ahead {
    pub class: u8,
    pub priority: u8,
}

/// What a candidate of this class at this level is ahead by.
#[inline(always)]
pub fn ahead_at(class: u8, level: u16) -> Ahead
    requires { level < level_count }
    ensures { result ≡ record { class = class; priority = greatest_priority - level } }
{
    Ahead {
        class,
        priority: (255 - level) as u8,
    }
}

/// The least level of anybody in these groups; 256 where nobody is.
#[inline(always)]
pub fn highest(lists: &Lists, groups: Bits64) -> u16
    requires { IsQueued lists.now }
    ensures { IsHighest lists.now (set_has groups) result }
{
    match lists.least(groups) {
        Some(found) => found.level as u16,
        None => 256,
    }
}
