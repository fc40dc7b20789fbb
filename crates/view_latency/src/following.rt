//! The lives and the calls of all threads of a history, made beside one core that makes its steps.
ghost use Rattle.std.specs.Prelude.{◌≡◌, ◌<◌, ◌≤◌, [], length, IfOk, OnOk, IsSome, None};
ghost use Rattle.aps_model.specs.Legal.{IsLegal};
ghost use Rattle.aps_core.specs.Run.{Run, end_of_run};
ghost use Rattle.aps_core.specs.Turn.{HasTurnIn, with_entry};
ghost use Rattle.view_replay.specs.Entry.{entry_of};
ghost use Rattle.view_latency.specs.Calls.{AreCalls};
ghost use Rattle.view_latency.specs.Followed.{AreFollowed};
ghost use Rattle.view_latency.specs.Following.{IsBeside};
ghost use Rattle.aps_model.specs.Limits.{most_entries};

use crate::call::Calls;
use crate::callers::all_callers;
use crate::calling::{add_news, uncalled};
use crate::seen::{Seen, all_seen};
use aps_core::Core;
use aps_model::{CpuId, Entry, History, Nanos, NoMemory, Order};
use std::alloc::Global;
use view_lives::{GrowingLives, Life};
use view_replay::{boot, take_turn};

/// Of each thread of a scenario, by its number, its life and its calls.
#[derive(Drop)]
pub struct Followed {
    pub lives: Vec<Life>,
    pub calls: Vec<Calls>,
}

/// The calls of each thread of the scenario, by its number, in one pass over the entries of a history that is legal in this
/// order of turns. `NoMemory` comes where memory runs out.
pub fn calls(alloc: Global, history: &History, order: Order) -> Result<Vec<Calls>, NoMemory>
    requires legal { IsLegal history.now.scenario order history.now.entries }
    requires few { length history.now.entries ≤ most_entries }
    ensures { IfOk result (λ calls. AreCalls history.now.scenario history.now.entries calls.items) }
{
    let followed = follow_all(alloc, history, order)?;
    Ok(followed.calls)
}

/// The life and the calls of each thread of the scenario, by its number, in one pass over the entries of a history that is
/// legal in this order of turns. `NoMemory` comes where memory runs out.
pub fn follow_all(alloc: Global, history: &History, order: Order) -> Result<Followed, NoMemory>
    requires legal { IsLegal history.now.scenario order history.now.entries }
    requires few { length history.now.entries ≤ most_entries }
    ensures { IfOk result (AreFollowed history.now.scenario history.now.entries) }
{
    let mut core = boot(alloc, history, order)?;
    follow(alloc, &mut core, history.entries())
}

/// The life and the calls of each thread of the scenario of a core that has made no step, by its number, while the core makes the
/// steps of its run in fixed order, to the end. `NoMemory` comes where memory runs out.
pub fn follow_run(alloc: Global, core: &mut Core) -> Result<Followed, NoMemory>
    requires begins { core.old.entries ≡ [] }
    requires few { core.old.setup.limit ≤ most_entries }
    ensures setup { OnOk result (core.new.setup ≡ core.old.setup) }
    ensures ended { OnOk result (IsSome (end_of_run core.new)) }
    ensures followed { IfOk result (AreFollowed core.new.setup.scenario core.new.entries) }
{
    let mut following = Following::begin(alloc, core)?;
    while core.ended().is_none() {
        let first = core.first_due();
        following.go_on(core, first)?;
    }
    following.end()
}

/// The lives and the calls by these entries, whose steps the core makes, which has made none.
fn follow(alloc: Global, core: &mut Core, entries: &[Entry]) -> Result<Followed, NoMemory>
    requires begins { core.old.entries ≡ [] }
    requires legal { IsLegal core.old.setup.scenario core.old.setup.order entries.now }
    requires few { length entries.now ≤ core.old.setup.limit }
    requires short { core.old.setup.limit ≤ most_entries }
    ensures { IfOk result (AreFollowed core.old.setup.scenario entries.now) }
{
    let mut following = Following::begin(alloc, core)?;
    for e in entries {
        following.go_on(core, e.cpu)?;
    }
    following.end()
}

/// How far the lives and the calls of all threads have come beside a core: those that may call, what was seen of them after its
/// last entry, and when that ended (ns).
#[derive(Drop)]
pub struct Following {
    pub lives: GrowingLives,
    pub calls: Vec<Calls>,
    pub callers: Vec<usize>,
    pub seen: Vec<Seen>,
    pub moment: Nanos,
}

impl Following {
    /// Beside a core that has made no step.
    fn begin(alloc: Global, core: &Core) -> Result<Following, NoMemory>
        requires begins { core.now.entries ≡ [] }
        ensures { IfOk result (IsBeside core.now) }
    {
        let scenario = core.history().scenario();
        let count = scenario.threads().len();
        let callers = all_callers(alloc, scenario)?;
        let seen = all_seen(alloc, core, &callers)?;
        Ok(Following {
            lives: GrowingLives::unborn(alloc, count)?,
            calls: uncalled(alloc, count)?,
            callers,
            seen,
            moment: 0,
        })
    }

    /// The core makes the step of a processor that has the turn, and they go on with its entry.
    fn go_on(&mut self, core: &mut Core, cpu: CpuId) -> Result<(), NoMemory>
        requires beside { IsBeside core.old self.old }
        requires goes_on { end_of_run core.old ≡ None }
        requires turn { HasTurnIn core.old cpu }
        requires few { core.old.setup.limit ≤ most_entries }
        ensures beside { OnOk result (IsBeside core.new self.new) }
        ensures run { OnOk result (core.new ≡ with_entry core.old (entry_of core.old cpu)) }
        ensures room { length core.old.entries < core.old.setup.limit }
    {
        // the check wants to see here that the core's entries are legal, and each in its bounds
        let _entries = core.history().entries();
        let due = core.due(cpu);
        self.lives.lengthen(core, self.moment, due)?;
        let e = take_turn(core, cpu);
        add_news(&mut self.calls, &mut self.seen, &self.callers, core, &e)?;
        self.moment = due;
        Ok(())
    }

    /// The lives and the calls.
    fn end(self) -> Result<Followed, NoMemory>
        ensures { (run : Run) → IsBeside run self → IfOk result (AreFollowed run.setup.scenario run.entries) }
    {
        Ok(Followed {
            lives: self.lives.into_lives()?,
            calls: self.calls,
        })
    }
}
