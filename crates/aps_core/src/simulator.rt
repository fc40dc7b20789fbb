//! The core: a run under way, one step after the other. (A module `core` beside `Core` is refused, so the file has
//! this name.)
ghost use Rattle.std.specs.Prelude.{◌≡◌, ◌<◌, ◌≤◌, [], length, All, IfOk, Some, None, true, false};
ghost use Rattle.aps_model.specs.declared.entry.End.{End};
ghost use Rattle.aps_model.specs.declared.entry.Order.TheVariants.{Fixed};
ghost use Rattle.aps_model.specs.Due.{HasTurn, due, first_due};
ghost use Rattle.aps_model.specs.Legal.{IsLegal, fixed_run};
ghost use Rattle.aps_model.specs.Tiled.{IsTiled, IsBilledAsInherited};
ghost use Rattle.aps_model.specs.Valid.{IsScenario};
ghost use Rattle.aps_model.specs.Bound.{KeepsWindowBound, KeepsCriticalBound};
ghost use Rattle.aps_model.specs.Limits.{most_entries};
ghost use Rattle.laws_runs.specs.Choices.{EachPickIsGreatest};
ghost use Rattle.laws_runs.specs.Runs.{EndsNoSooner};
ghost use Rattle.aps_core.specs.declared.turn.Turn.TheVariants.{Took};
ghost use Rattle.aps_core.specs.Core.{IsUnderWay};
ghost use Rattle.aps_core.specs.Run.{IsLater, end_of_run, finished_run, history_of_run, most_changes, rooms_of, state_of_run};
ghost use Rattle.aps_core.specs.Turn.{HasTurnIn, IsFed, IsOwnEntry, IsTurnTaken, IsTurn, after_turn, with_entry};

mod asking;
mod reading;

use crate::recording;
use crate::rooms::Room;
use crate::scheduler::Scheduler;
use crate::turn::Turn;
use aps_model::{CpuId, End, Entry, History, Nanos, NoMemory, Order, Scenario};
use std::alloc::Global;
use std::marker::Model;

/// A run under way. Contracts see its setup, which is the scenario, the order of turns and the limit, and its
/// entries so far. What a scenario, an entry, a turn and a step are is said in docs/DEFINITIONS.md.
pub struct Core {
    history: History,
    order: Order,
    limit: u32,
    scheduler: Scheduler,
}

// Written out, so that it is proved here alone: a derived drop is proved again in each crate that lets a value go.
impl Drop for Core {
    fn drop(self) {
        let Self {
            history: _,
            order: _,
            limit: _,
            scheduler: _,
        } = self;
    }
}

impl Model for Core {
    ghost use Rattle.aps_core.specs.Run.{Run};

    ghost Value = { Run };

    ghost use Rattle.aps_core.specs.CoreView.{run_of_core, KeepsCore};

    ghost view = { run_of_core };

    ghost invariant = { KeepsCore };
}

impl Core {
    /// A run that begins. `limit` is the greatest number of entries, 1 to 4,000,000. All memory of the run is taken here;
    /// where it isn't there the answer is `NoMemory`, and the scenario is dropped.
    pub fn boot(
        alloc: Global,
        scenario: Scenario,
        order: Order,
        limit: u32,
    ) -> Result<Core, NoMemory>
        requires some { 1 ≤ limit }
        requires few { limit ≤ most_entries }
        ensures { IfOk result (λ core. core
            ≡ record { setup = record { scenario = scenario; order = order; limit = limit }; entries = [] }) }
    {
        let replies = scenario.commands().len() as u16;
        let changes = most_changes(&scenario);
        let scheduler = Scheduler::boot(alloc, &scenario)?;
        let history = History::begin(alloc, scenario, limit, replies, changes)?;
        Ok(Core {
            history,
            order,
            limit,
            scheduler,
        })
    }

    /// When the processor steps next, in ns.
    pub fn due(&self, cpu: CpuId) -> Nanos
        requires { cpu < self.now.setup.scenario.shape.cpus }
        ensures { result ≡ due (state_of_run self.now) self.now.entries cpu }
    {
        self.scheduler.dues.of(cpu)
    }

    /// The order of turns.
    pub fn order(&self) -> Order
        ensures { result ≡ self.now.setup.order }
    {
        self.order
    }

    /// The end of the run, if it has come. Where several hold it is the first of these: by a reboot, where the last entry
    /// made a partition bankrupt under that policy; at the horizon, where every processor has stepped there; by the limit,
    /// where there are that many entries.
    pub fn ended(&self) -> Option<End>
        ensures { result ≡ end_of_run self.now }
    {
        self.history.end()
    }

    /// The history so far, with its end where it has ended. It is legal in the core's order, and no shorter prefix of
    /// it has ended; what follows for its entries stands beside.
    pub fn history(&self) -> &History
        ensures same { result.now ≡ history_of_run self.now }
        ensures valid { IsScenario self.now.setup.scenario }
        ensures legal { IsLegal self.now.setup.scenario self.now.setup.order self.now.entries }
        ensures no_sooner { EndsNoSooner self.now.setup.scenario self.now.setup.limit self.now.entries }
        ensures tiled { IsTiled self.now.setup.scenario.shape.tick self.now.entries }
        ensures billed { IsBilledAsInherited self.now.setup.scenario self.now.entries }
        ensures picks { EachPickIsGreatest self.now.setup.scenario self.now.entries }
        ensures bound { KeepsWindowBound self.now.setup.scenario self.now.entries }
        ensures critical_bound { KeepsCriticalBound self.now.setup.scenario self.now.entries }
        ensures cpus { All (λ e. e.cpu < self.now.setup.scenario.shape.cpus) self.now.entries }
    {
        &self.history
    }

    /// The same, taken out of the core.
    pub fn into_history(self) -> History
        ensures same { result ≡ history_of_run self }
        ensures valid { IsScenario self.setup.scenario }
        ensures legal { IsLegal self.setup.scenario self.setup.order self.entries }
        ensures no_sooner { EndsNoSooner self.setup.scenario self.setup.limit self.entries }
        ensures tiled { IsTiled self.setup.scenario.shape.tick self.entries }
        ensures billed { IsBilledAsInherited self.setup.scenario self.entries }
        ensures picks { EachPickIsGreatest self.setup.scenario self.entries }
        ensures bound { KeepsWindowBound self.setup.scenario self.entries }
        ensures critical_bound { KeepsCriticalBound self.setup.scenario self.entries }
        ensures cpus { All (λ e. e.cpu < self.setup.scenario.shape.cpus) self.entries }
    {
        let Core {
            history,
            order: _,
            limit: _,
            scheduler: _,
        } = self;
        history
    }

    /// For how many entries, replies and changes `boot` took room. It is the room of the history, takes no memory, and
    /// stays the same in all steps.
    pub fn room(&self) -> Room
        ensures entries { result.entries ≡ (rooms_of self.now.setup).entries }
        ensures replies { result.replies ≡ (rooms_of self.now.setup).replies }
        ensures changes { result.changes ≡ (rooms_of self.now.setup).changes }
        ensures taken { (history_of_run self.now).room
            ≡ record { entries = result.entries; replies = result.replies; changes = result.changes } }
    {
        let scenario = self.history.scenario();
        Room {
            entries: self.limit,
            replies: scenario.commands().len() as u16,
            changes: most_changes(scenario) as u16,
        }
    }

    /// One step of the processor. The answer is the end of the run where it has ended, the lowest processor that has
    /// the turn where this one hasn't, and else the entry of the step, which the history then has as its last one.
    /// But for that entry nothing changes. Who has the turn and what a step does is said in docs/DEFINITIONS.md, under
    /// "Who steps, and when".
    pub fn step(&mut self, cpu: CpuId) -> Turn
        requires { cpu < self.old.setup.scenario.shape.cpus }
        ensures turn { IsTurn self.old cpu result }
        ensures run { self.new ≡ after_turn self.old result }
        ensures own { IsOwnEntry cpu result }
        ensures fed { IsFed self.old result }
    {
        if let Some(end) = self.ended() {
            return Turn::Ended(end);
        }
        let first = self.first_due();
        if !self.has_turn(cpu, first) {
            let due = self.due(first);
            return Turn::NotYet { cpu: first, due };
        }
        Turn::Took(self.take_turn(cpu))
    }

    /// Steps the lowest processor that has the turn until the run has ended, and answers that end. From no entries
    /// this makes the run in fixed order, in a core of either order.
    pub fn finish(&mut self) -> End
        ensures ended { end_of_run self.new ≡ Some result }
        ensures run { self.new ≡ finished_run self.old }
        ensures later { IsLater self.old self.new }
        ensures fixed { self.old.entries ≡ [] → self.new.entries ≡ fixed_run self.old.setup.scenario self.old.setup.limit }
        ensures legal { IsLegal self.new.setup.scenario self.new.setup.order self.new.entries }
        ensures no_sooner { EndsNoSooner self.new.setup.scenario self.new.setup.limit self.new.entries }
    {
        loop {
            let first = self.first_due();
            if let Some(end) = self.ended() {
                return end;
            }
            self.take_turn(first);
        }
    }

    /// The lowest of the processors that are due least, which has the turn in either order.
    pub fn first_due(&self) -> CpuId
        ensures same { result ≡ first_due (state_of_run self.now) self.now.entries (state_of_run self.now).shape.cpus }
        ensures lowest { HasTurn Fixed (state_of_run self.now) self.now.entries result }
        ensures exists { result < self.now.setup.scenario.shape.cpus }
        ensures keeps { IsUnderWay self.now }
    {
        self.scheduler
            .machine
            .first_due(self.history.entries(), &self.scheduler.dues)
    }

    /// Whether the processor has the turn, where this is the lowest that has it.
    fn has_turn(&self, cpu: CpuId, first: CpuId) -> bool
        requires cpu { cpu < self.now.setup.scenario.shape.cpus }
        requires first { first < self.now.setup.scenario.shape.cpus }
        requires lowest { HasTurn Fixed (state_of_run self.now) self.now.entries first }
        ensures yes { result ≡ true → HasTurnIn self.now cpu }
        ensures no { result ≡ false → HasTurnIn self.now cpu → ⊥ }
    {
        match self.order {
            Order::Free => self.due(cpu) == self.due(first),
            Order::Fixed => cpu == first,
        }
    }

    /// The step of a processor that has the turn, in a run that goes on.
    #[inline(always)]
    fn take_turn(&mut self, cpu: CpuId) -> Entry
        requires goes_on { end_of_run self.old ≡ None }
        requires turn { HasTurnIn self.old cpu }
        ensures taken { IsTurnTaken self.old cpu result }
        ensures run { self.new ≡ with_entry self.old result }
        ensures own { result.cpu ≡ cpu }
        ensures fed { IsFed self.old (Took result) }
        ensures room { length self.old.entries < self.old.setup.limit }
    {
        let made = self
            .scheduler
            .step(self.history.scenario(), self.history.entries(), cpu);
        let e = made.entry;
        recording::record(
            &mut self.history,
            made,
            &self.scheduler.machine,
            &self.scheduler.ends,
            self.limit,
        );
        self.scheduler.set_due(self.history.entries(), &e);
        e
    }
}

/// How many changes a run of the scenario can make.
fn most_changes(scenario: &Scenario) -> u32
    ensures { result ≡ most_changes scenario.now }
{
    let critical = scenario
        .partitions()
        .iter()
        .filter(|row| row.critical > 0)
        .count();
    2 * scenario.commands().len() as u32 + critical as u32
}
