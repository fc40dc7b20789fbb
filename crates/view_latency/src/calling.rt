//! The calls of all threads of a history, one entry after the other.
ghost use Rattle.std.specs.Prelude.{◌≡◌, ℕ, ◌<◌, ◌≤◌, length, replicate, IfOk, OnOk};
ghost use Rattle.aps_model.specs.History.{IsEntry};
ghost use Rattle.aps_model.specs.Limits.{most_threads};
ghost use Rattle.aps_model.specs.SchedulerState.{SchedulerState};
ghost use Rattle.aps_core.specs.Run.{state_of_run};
ghost use Rattle.view_latency.specs.Callers.{AreCallers};
ghost use Rattle.view_latency.specs.Calls.{AreLongerCalls, CallsHaveRoom, no_calls};
ghost use Rattle.view_latency.specs.Seen.{AreSeen, HasFits};

use crate::call::Calls;
use crate::news::news_by;
use crate::seen::{Seen, seen_of};
use aps_core::Core;
use aps_model::{Entry, NoMemory, ThreadId};
use std::alloc::Global;

/// Of so many threads, no calls. `NoMemory` comes where memory runs out.
pub fn uncalled(alloc: Global, count: usize) -> Result<Vec<Calls>, NoMemory>
    ensures { IfOk result (λ calls. calls.items ≡ replicate count no_calls) }
{
    let mut calls = Vec::with_capacity(alloc, count)?;
    for _ in 0..count {
        calls.push(Calls::none(alloc))?;
    }
    Ok(calls)
}

/// The calls of each thread go on with this entry, which the core made last: by what was seen before of the threads of the core's
/// scenario that may call, and of these it is seen anew. An entry tells nothing of any other. `NoMemory` comes where memory runs out.
pub fn add_news(
    calls: &mut Vec<Calls>,
    seen: &mut Vec<Seen>,
    callers: &[usize],
    core: &Core,
    e: &Entry,
) -> Result<(), NoMemory>
    requires few { length calls.old.items ≤ most_threads }
    requires one_each { length calls.old.items ≡ length core.now.setup.scenario.threads }
    requires callers { AreCallers core.now.setup.scenario callers.now }
    requires seen { length seen.old.items ≡ length callers.now }
    requires room { CallsHaveRoom calls.old.items }
    requires entry { IsEntry e.now }
    ensures seen { OnOk result (AreSeen (state_of_run core.now) callers.now seen.new.items) }
    ensures longer { OnOk result ((s : SchedulerState)
        → AreSeen s callers.now seen.old.items
        → HasFits core.now.setup.scenario s
        → AreLongerCalls core.now.setup.scenario s e.now calls.old.items calls.new.items) }
{
    let scenario = core.history().scenario();
    for k in 0..callers.len() {
        let x = callers[k];
        let thread = ThreadId::at(x);
        let news = news_by(scenario, thread, &seen[k], e);
        calls[x].add(e.to, &news)?;
        seen[k] = seen_of(core, thread);
    }
    Ok(())
}
