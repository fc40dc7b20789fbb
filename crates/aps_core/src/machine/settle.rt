//! The end of an operation, and the return of a thread that can still run.
ghost use Rattle.std.specs.Prelude.{◌≡◌, ◌<◌, ◌≤◌, ◌^◌, length, IfSome};
ghost use Rattle.aps_model.specs.Limits.{last_moment};
ghost use Rattle.aps_model.specs.SchedulerState.{thread_at};
ghost use Rattle.aps_model.specs.Step.{do_op, enter_next, finish_op, give_back, settled};
ghost use Rattle.aps_core.specs.Room.{CanFinish, HasRoomForOperation, NamesIn};

use super::Machine;
use aps_model::{Done, Nanos, Op, Pick, Scenario, State, ThreadId};
use aps_tasks::{op_at, place_after, policy_of};

impl Machine {
    /// A thread that still runs enters its next operation.
    fn enter_next(&mut self, scenario: &Scenario, x: ThreadId, now: Nanos, op: &Op)
        requires now { now ≤ last_moment }
        requires place { (thread_at self.old x).place < 65535 }
        ensures { self.new ≡ enter_next scenario.now self.old x now op.now (thread_at self.old x).state }
    {
        let task = self.task(x);
        let State::Running(_) = task.state else {
            return;
        };
        let place = place_after(op, task.place);
        let next = op_at(scenario, x, place);
        self.tasks.enter(x, place, &next, &self.shape, now);
    }

    /// The thread does the operation, which is over, and goes on.
    fn do_op(&mut self, scenario: &Scenario, x: ThreadId, now: Nanos, op: &Op) -> Done
        requires now { now ≤ last_moment }
        requires room { HasRoomForOperation self.old x }
        requires named { NamesIn (length self.old.channels) op.now }
        ensures { do_op scenario.now self.old x now op.now ≡ record { state = self.new; done = result } }
    {
        let done = self.effect(scenario, x, now, op);
        self.enter_next(scenario, x, now, op);
        done
    }

    /// The thread's operation has its effect, if nothing is left of it.
    fn finish_op(&mut self, scenario: &Scenario, x: ThreadId, now: Nanos) -> Done
        requires now { now ≤ last_moment }
        requires room { CanFinish scenario.now self.old x }
        ensures { finish_op scenario.now self.old x now (thread_at self.old x).left ≡ record { state = self.new; done = result } }
    {
        let task = self.task(x);
        match task.left {
            Some(0) => {
                let op = op_at(scenario, x, task.place);
                self.do_op(scenario, x, now, &op)
            }
            _ => Done::Nothing,
        }
    }

    /// A thread that still runs goes back to the ready ones; a round-robin thread that ran for four ticks since its
    /// stamp gets the next one.
    fn give_back(&mut self, scenario: &Scenario, x: ThreadId)
        requires stamps { self.old.stamps < 2 ^ 63 }
        ensures { self.new ≡ give_back scenario.now self.old x (thread_at self.old x).state }
    {
        let State::Running(_) = self.task(x).state else {
            return;
        };
        let policy = policy_of(scenario, x);
        self.tasks.give_back(x, &self.shape, policy);
    }

    /// What the operation did whose thread ran, if it is over. A thread that still runs goes back to the ready ones.
    pub fn settle(&mut self, scenario: &Scenario, now: Nanos, running: &Option<Pick>) -> Done
        requires now { now ≤ last_moment }
        requires room { IfSome running.now (λ p. CanFinish scenario.now self.old p.thread) }
        ensures { settled scenario.now self.old now running.now ≡ record { state = self.new; done = result } }
    {
        let Some(pick) = running else {
            return Done::Nothing;
        };
        let done = self.finish_op(scenario, pick.thread, now);
        self.give_back(scenario, pick.thread);
        done
    }
}
