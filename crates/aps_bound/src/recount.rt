//! The audit by a recount of each window.
ghost use Rattle.std.specs.Prelude.{◌≡◌, ◌+◌, ◌-◌, ◌*◌, ◌<◌, ◌≤◌};
ghost use Rattle.aps_model.specs.Limits.{last_tick};
ghost use Rattle.aps_bound.specs.Allowed.{AreAllowed};
ghost use Rattle.aps_bound.specs.Limits.{AreLimits};
ghost use Rattle.aps_bound.specs.Worst.{with_window, with_windows};

use crate::allowed::{Allowed, allowed_of};
use crate::limits::{Limits, no_limits};
use crate::worst::with_partitions;
use aps_model::{Audit, History, Usage};

/// The audit so far, with all windows from ticks `from` to `end - 1` on, in whatever order the entries stand. The cost
/// is that of one pass over the entries for each window.
pub fn by_recount(history: &History, audit: &Audit, from: u64, end: u64) -> Audit
    requires { end ≤ 100000001 }
    ensures { result ≡ with_windows history.now audit.now from end }
{
    let allowed = allowed_of(history);
    let mut audit = *audit;
    let mut limits = no_limits();
    for a in from..end {
        with_window(history, &allowed, &mut audit, &mut limits, a);
    }
    audit
}

/// The audit goes on with the window from tick `a` on.
fn with_window(history: &History, allowed: &Allowed, audit: &mut Audit, limits: &mut Limits, a: u64)
    requires allowed { AreAllowed history.now allowed.now }
    requires limits { AreLimits history.now audit.old limits.old }
    requires a { a ≤ last_tick }
    ensures audit { audit.new ≡ with_window history.now audit.old a }
    ensures limits { AreLimits history.now audit.new limits.new }
{
    let shape = history.shape();
    let b = a + u64::from(shape.window);
    let usage = Usage::of(history.entries(), shape.tick, a, b);
    with_partitions(history, allowed, &usage, audit, limits, a);
}
