//! The threads: their tasks, and the values of their own.
ghost use Rattle.std.specs.Prelude.{◌≡◌, ◌<◌, ◌≤◌, ◌^◌, length};
ghost use Rattle.aps_model.specs.Limits.{last_moment, most_threads};
ghost use Rattle.aps_model.specs.Operation.{go_on};
ghost use Rattle.aps_model.specs.SchedulerState.{thread_at, with_state, with_own};
ghost use Rattle.aps_tasks.specs.Start.{task_of};

use super::Machine;
use aps_model::{Facts, Nanos, PartitionId, Scenario, State, ThreadId};
use aps_tasks::{Task, op_at};

impl Machine {
    /// How many threads there are.
    #[inline(always)]
    pub fn count(&self) -> usize
        ensures same { result ≡ length self.now.threads }
        ensures few { result ≤ most_threads }
    {
        self.tasks.len()
    }

    /// The thread as it stands, but for its own values.
    #[inline(always)]
    pub fn task(&self, x: ThreadId) -> Task
        ensures { result ≡ task_of (thread_at self.now x) }
    {
        self.tasks.task(x)
    }

    /// The thread's own values.
    pub fn own(&self, x: ThreadId) -> Facts
        ensures { result ≡ (thread_at self.now x).own }
    {
        self.inherit.own(x)
    }

    /// The thread is in this state from now on.
    #[inline(always)]
    pub fn set_state(&mut self, x: ThreadId, state: State)
        ensures { self.new ≡ with_state self.old x state }
    {
        self.tasks.set_state(x, state);
    }

    /// The thread's own partition is this from now on, and that of its servers follows.
    pub fn set_partition(&mut self, x: ThreadId, partition: PartitionId)
        ensures { self.new ≡ with_own self.old x (record (thread_at self.old x).own { partition = partition }) }
    {
        self.inherit.join(x, partition);
    }

    /// The thread's own priority is this from now on, and that of its servers follows.
    pub fn set_own_priority(&mut self, x: ThreadId, priority: u8)
        ensures { self.new ≡ with_own self.old x (record (thread_at self.old x).own { priority = priority }) }
    {
        self.inherit.set_priority(x, priority);
    }

    /// The thread is critical of its own from now on, or isn't, and so are its servers.
    pub fn mark(&mut self, x: ThreadId, critical: bool)
        ensures { self.new ≡ with_own self.old x (record (thread_at self.old x).own { critical = critical }) }
    {
        self.inherit.mark(x, critical);
    }

    /// A thread that waited goes on with its next operation.
    pub fn go_on(&mut self, scenario: &Scenario, x: ThreadId, now: Nanos)
        requires now { now ≤ last_moment }
        requires place { (thread_at self.old x).place < 65535 }
        requires stamps { self.old.stamps < 2 ^ 63 }
        ensures { self.new ≡ go_on scenario.now self.old x now }
    {
        let place = self.task(x).place + 1;
        let op = op_at(scenario, x, place);
        self.tasks.go_on(x, place, &op, &self.shape, now);
    }
}
