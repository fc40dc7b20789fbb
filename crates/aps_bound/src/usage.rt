//! What enters the usage of a window and what leaves it.
ghost use Rattle.std.specs.Prelude.{◌≡◌, ℕ, ◌+◌, ◌-◌, ◌*◌, ◌<◌, ◌≤◌, ◌^◌, All, length, if◌then◌else◌, ◌&&◌, min, max, slice_index};
ghost use Rattle.aps_model.specs.History.{IsEntry};
ghost use Rattle.aps_model.specs.Limits.{greatest_u32};
ghost use Rattle.aps_model.specs.Sums.{IsAtMost, IsBilled};
ghost use Rattle.aps_model.specs.Usage.{overlap};
ghost use Rattle.aps_bound.specs.Cursor.{IsInTick};
ghost use Rattle.aps_bound.specs.Usage.{IsMore, HasUsed, HasBilled};

use aps_model::{Entry, Nanos, Usage};

/// Adds what these entries bill, which lie in one tick.
#[inline(always)]
pub fn add(usage: &mut Usage, entries: &[Entry], _tick: u64, _a: u64)
    requires entries { All IsEntry entries.now }
    requires few { length entries.now ≤ greatest_u32 }
    requires inside { All (IsInTick _tick _a) entries.now }
    requires room { IsAtMost (2 ^ 62) usage.old }
    ensures { IsMore _tick _a (_a + 1) entries.now usage.old usage.new }
{
    for e in entries {
        let ns = time_of(e, _tick, _a);
        usage.bill(e, ns);
    }
}

/// Takes away what these entries bill, which lie in one tick.
#[inline(always)]
pub fn take_away(usage: &mut Usage, entries: &[Entry], _tick: u64, _a: u64)
    requires entries { All IsEntry entries.now }
    requires inside { All (IsInTick _tick _a) entries.now }
    requires part { HasUsed _tick _a (_a + 1) entries.now usage.old }
    ensures { IsMore _tick _a (_a + 1) entries.now usage.new usage.old }
{
    for e in entries {
        let ns = time_of(e, _tick, _a);
        give_back(usage, e, ns);
    }
}

/// The time of an entry that lies in this tick.
#[inline(always)]
fn time_of(e: &Entry, _tick: u64, _a: u64) -> Nanos
    requires entry { IsEntry e.now }
    requires inside { IsInTick _tick _a e.now }
    ensures same { result ≡ overlap _tick _a (_a + 1) e.now.from e.now.to }
    ensures part { result ≤ e.now.to - e.now.from }
{
    e.to - e.from
}

/// Takes so many ns away from what the entry bills.
fn give_back(usage: &mut Usage, e: &Entry, ns: Nanos)
    requires { HasBilled e.now ns usage.old }
    ensures { IsBilled usage.new e.now ns usage.old }
{
    if let Some(p) = e.billed {
        usage.used[p.index()] -= ns;
        if e.critical {
            usage.critical[p.index()] -= ns;
        }
    }
}
