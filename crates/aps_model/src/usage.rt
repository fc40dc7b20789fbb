//! How much of a time lies in given ticks, and what each partition used of them.
ghost use Rattle.std.specs.Prelude.{◌≡◌, ℕ, ◌+◌, ◌-◌, ◌*◌, ◌<◌, ◌≤◌, ◌^◌, All, length, if◌then◌else◌, ◌&&◌, min, max, slice_index};
ghost use Rattle.aps_model.specs.History.{IsEntry};
ghost use Rattle.aps_model.specs.Limits.{greatest_u32, longest_tick};
ghost use Rattle.aps_model.specs.Usage.{names, overlap, used, critical_used};
ghost use Rattle.aps_model.specs.Sums.{IsAtMost, IsBilled, IsUsage};

use crate::entry::Entry;
use crate::ids::Nanos;
use crate::limits::MOST_PARTITIONS;

/// How much of the time from one moment to another lies in ticks `a` to `b - 1`, where a tick has so many ns.
pub fn overlap(tick: u64, a: u64, b: u64, from: Nanos, to: Nanos) -> Nanos
    requires first { a * tick < 2 ^ 63 }
    requires end { b * tick < 2 ^ 63 }
    ensures same { result ≡ overlap tick a b from to }
    ensures part { result ≤ to - from }
{
    to.min(b * tick).saturating_sub(from.max(a * tick))
}

/// What each partition used in some ticks, and what of that was critical, in nanoseconds.
#[derive(Clone, Copy)]
pub struct Usage {
    pub used: [Nanos; MOST_PARTITIONS],
    pub critical: [Nanos; MOST_PARTITIONS],
}

impl Usage {
    /// What these entries bill in ticks `a` to `b - 1`, where a tick has so many ns.
    pub fn of(entries: &[Entry], tick: u64, a: u64, b: u64) -> Usage
        requires entries { All IsEntry entries.now }
        requires few { length entries.now ≤ greatest_u32 }
        requires first { a * tick < 2 ^ 63 }
        requires end { b * tick < 2 ^ 63 }
        ensures sums { IsUsage tick a b entries.now result }
        ensures small { IsAtMost (longest_tick * length entries.now) result }
    {
        let mut usage = Usage {
            used: [0; MOST_PARTITIONS],
            critical: [0; MOST_PARTITIONS],
        };
        for e in entries {
            let ns = overlap(tick, a, b, e.from, e.to);
            usage.bill(e, ns);
        }
        usage
    }

    /// Adds so many ns to what the entry bills.
    pub fn bill(&mut self, e: &Entry, ns: Nanos)
        requires short { ns ≤ longest_tick }
        requires room { IsAtMost (2 ^ 63) self.old }
        ensures { IsBilled self.old e.now ns self.new }
    {
        if let Some(p) = e.billed {
            self.used[p.index()] += ns;
            if e.critical {
                self.critical[p.index()] += ns;
            }
        }
    }
}
