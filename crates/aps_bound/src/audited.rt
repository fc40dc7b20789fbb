//! The audit over all loaded windows.
ghost use Rattle.std.specs.Prelude.{◌≡◌, ◌+◌, ◌-◌, ◌≤◌};
ghost use Rattle.aps_model.specs.Audit.{audit_of};
ghost use Rattle.aps_model.specs.Limits.{last_tick};
ghost use Rattle.aps_model.specs.Loaded.{finished_ticks};

use crate::finished::finished_ticks;
use crate::loaded::loaded_tick;
use crate::order::is_in_order;
use crate::recount::by_recount;
use crate::slide::by_slide;
use aps_model::{Audit, History, Shape};

/// The tick from which all finished ticks are steady, and over all loaded windows and all partitions the greatest
/// amounts in nanoseconds by which usage exceeds the budget, falls short of it, and by which critical usage exceeds
/// the critical budget; an amount that would be negative counts as 0. Budgets and the window are those that stand
/// last. Each amount comes with the first window that attains it, and of that window the lowest partition. There is
/// none exactly where no window is loaded. It takes no memory. Where no entry ends before an earlier one and each ends by
/// the first boundary after its beginning, the cost is that of a few passes over the entries, and for each loaded window
/// that of a look at each partition; else it is that of one pass over the entries for each loaded window.
pub fn audit(history: &History) -> Audit
    ensures { result ≡ audit_of history.now }
{
    let shape = history.shape();
    let entries = history.entries();
    let count = finished_ticks(shape, entries);
    let is_in_order = is_in_order(entries, shape.tick);
    let loaded_from = loaded_tick(shape, entries, history.changes(), count, is_in_order);
    let nothing = Audit {
        loaded_from: loaded_from as u32,
        worst_over: None,
        worst_short: None,
        critical_worst: None,
    };
    let end = first_unfinished(shape, count);
    if is_in_order {
        by_slide(history, &nothing, loaded_from, end)
    } else {
        by_recount(history, &nothing, loaded_from, end)
    }
}

/// The first tick from which a window isn't finished, or 0, where so many ticks are.
fn first_unfinished(shape: &Shape, count: u64) -> u64
    requires { count ≤ last_tick }
    ensures { result ≡ count + 1 - shape.now.window }
{
    (count + 1).saturating_sub(u64::from(shape.window))
}
