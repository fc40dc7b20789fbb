//! The audit by a window that slides from each to the next.
ghost use Rattle.std.specs.Prelude.{◌≡◌, ◌+◌, ◌-◌, ◌*◌, ◌<◌, ◌≤◌};
ghost use Rattle.aps_model.specs.Limits.{last_tick};
ghost use Rattle.aps_bound.specs.Order.{IsInOrder};
ghost use Rattle.aps_bound.specs.Worst.{with_windows};

use crate::allowed::allowed_of;
use crate::limits::no_limits;
use crate::window::Window;
use crate::worst::with_partitions;
use aps_model::{Audit, History};

/// The audit so far, with all windows from ticks `from` to `end - 1` on, where the entries are in order of ticks. The
/// cost is that of a few passes over the entries, and for each window that of a look at each partition.
pub fn by_slide(history: &History, audit: &Audit, from: u64, end: u64) -> Audit
    requires order { IsInOrder history.now.shape.tick history.now.entries }
    requires from { from ≤ last_tick }
    requires end { end ≤ 100000001 }
    ensures { result ≡ with_windows history.now audit.now from end }
{
    let entries = history.entries();
    let shape = history.shape();
    let mut window = Window::over(entries, shape.tick, from, from + u64::from(shape.window));
    let allowed = allowed_of(history);
    let mut audit = *audit;
    let mut limits = no_limits();
    for a in from..end {
        with_partitions(history, &allowed, &window.usage, &mut audit, &mut limits, a);
        window.slide(entries, shape.tick);
    }
    audit
}
