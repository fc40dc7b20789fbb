//! The effect of an operation that is over.
ghost use Rattle.std.specs.Prelude.{◌≡◌, ◌<◌, ◌≤◌, ◌^◌, length};
ghost use Rattle.aps_model.specs.Effect.{effect, joined};
ghost use Rattle.aps_model.specs.Limits.{last_moment};
ghost use Rattle.aps_model.specs.Operation.{with_stamped};
ghost use Rattle.aps_model.specs.Partition.{partition_named};
ghost use Rattle.aps_model.specs.SchedulerState.{thread_at};
ghost use Rattle.aps_core.specs.Room.{HasRoomForOperation, NamesIn};

use super::Machine;
use aps_model::{Done, Name, Nanos, Op, Scenario, State, ThreadId};

impl Machine {
    /// The thread has the next stamp, and else is as it was.
    fn stamp_anew(&mut self, x: ThreadId)
        requires { self.old.stamps < 2 ^ 63 }
        ensures { self.new ≡ with_stamped self.old x (thread_at self.old x) }
    {
        self.tasks.restamp(x);
    }

    /// The thread is of the partition of this name, if there is one.
    fn join(&mut self, x: ThreadId, name: &Name) -> Done
        ensures { joined self.old x (partition_named self.old.rows name.now) ≡ record { state = self.new; done = result } }
    {
        let Some(partition) = self.tree.lookup(*name) else {
            return Done::JoinNone;
        };
        self.set_partition(x, partition);
        Done::Join
    }

    /// The thread has this priority of its own, and the next stamp.
    fn set_priority(&mut self, x: ThreadId, priority: u8)
        requires { self.old.stamps < 2 ^ 63 }
        ensures { self.new ≡ with_stamped self.old x
            (record (thread_at self.old x) { own = record (thread_at self.old x).own { priority = priority } }) }
    {
        self.set_own_priority(x, priority);
        self.stamp_anew(x);
    }

    /// The effect of the thread's operation, which is over. The answer says what it did.
    pub fn effect(&mut self, scenario: &Scenario, x: ThreadId, now: Nanos, op: &Op) -> Done
        requires now { now ≤ last_moment }
        requires room { HasRoomForOperation self.old x }
        requires named { NamesIn (length self.old.channels) op.now }
        ensures { effect scenario.now self.old x now op.now ≡ record { state = self.new; done = result } }
    {
        match op {
            Op::Run(_) => Done::Run,
            Op::Forever | Op::Sleep(_) => Done::Nothing,
            Op::Yield => {
                self.stamp_anew(x);
                Done::Yield
            }
            Op::Send(c) => self.send(scenario, x, *c, now),
            Op::Receive(c) => self.receive(x, *c),
            Op::Reply => self.reply(scenario, x, now),
            Op::Join(name) => self.join(x, name),
            Op::Priority(n) => {
                self.set_priority(x, *n);
                Done::Priority
            }
            Op::CriticalOn => {
                self.mark(x, true);
                Done::CriticalOn
            }
            Op::CriticalOff => {
                self.mark(x, false);
                Done::CriticalOff
            }
            Op::Repeat => Done::Repeat,
            Op::Exit => {
                self.reply(scenario, x, now);
                self.set_state(x, State::Gone);
                Done::Exit
            }
        }
    }
}
