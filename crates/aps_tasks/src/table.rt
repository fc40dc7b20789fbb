//! The threads of a run apart from their programs, and the calls that change one of them.
ghost use Rattle.std.specs.Prelude.{◌≡◌, ◌+◌, ◌<◌, ◌≤◌, ◌^◌, length, IfOk};
ghost use Rattle.aps_tasks.specs.Kept.{IsShort};
ghost use Rattle.aps_tasks.specs.Start.{start_table};
ghost use Rattle.aps_tasks.specs.Table.{put_back, put_entered, put_given, put_on, put_ready, put_spent, put_stamped, put_state, put_task, task_in};
ghost use Rattle.aps_model.specs.Limits.{last_moment, longest_tick};

use crate::operation::{duration, is_slice_over, left_after, state_in};
use crate::start::start_tasks;
use crate::task::{Task, no_task};
use aps_model::{Nanos, NoMemory, Op, Policy, Scenario, Shape, State, ThreadId};
use std::alloc::Global;
use std::marker::Model;

/// The threads of a run as they go through their programs, for a caller that has the programs: it names the operation that
/// a thread enters, and its policy. Contracts see the task of each thread and the next stamp. Where there is no such
/// thread, it counts as gone, and no call changes it. All memory is taken when the threads are made.
pub struct TaskTable {
    tasks: Vec<Task>,
    stamps: u64,
}

// Written out, so that it is proved here alone: a derived drop is proved again in each crate that lets a value go.
impl Drop for TaskTable {
    fn drop(self) {
        let Self {
            tasks: _,
            stamps: _,
        } = self;
    }
}

impl Model for TaskTable {
    ghost use Rattle.aps_tasks.specs.Table.{Table};

    ghost Value = { Table };

    ghost view = { λ t. record { tasks = t.tasks.items; stamps = t.stamps } };
}

impl TaskTable {
    /// Each thread of the scenario in its first operation, entered at 0; the ready ones have the stamps from 0 on, in
    /// order of the scenario. `NoMemory` comes where there is no room.
    pub fn new(alloc: Global, scenario: &Scenario) -> Result<TaskTable, NoMemory>
        ensures { IfOk result (λ t. t ≡ start_table scenario.now) }
    {
        let (tasks, stamps) = start_tasks(alloc, scenario)?;
        Ok(TaskTable { tasks, stamps })
    }

    /// How many threads there are.
    pub fn len(&self) -> usize
        ensures { result ≡ length self.now.tasks }
    {
        self.tasks.len()
    }

    /// The thread's task.
    #[inline(always)]
    pub fn task(&self, x: ThreadId) -> Task
        ensures { result ≡ task_in self.now x }
    {
        match self.tasks.get(x.index()) {
            Some(task) => *task,
            None => no_task(),
        }
    }

    /// The thread is in this state from now on.
    #[inline(always)]
    pub fn set_state(&mut self, x: ThreadId, state: State)
        ensures { self.new ≡ put_state self.old x state }
    {
        let index = x.index();
        if index < self.tasks.len() {
            self.tasks[index].state = state;
        }
    }

    /// The thread enters the operation at this place of its program now, in ns, at most 10,000,000,000,000. Where that is
    /// a sleep the thread sleeps; else it stays in its state.
    #[inline(always)]
    pub fn enter(&mut self, x: ThreadId, place: u16, op: &Op, shape: &Shape, now: Nanos)
        requires now { now ≤ last_moment }
        requires short { IsShort op.now }
        ensures { self.new ≡ put_entered self.old x shape.now place op.now now }
    {
        let index = x.index();
        if index < self.tasks.len() {
            let task = &mut self.tasks[index];
            task.state = state_in(op, now, task.state);
            task.place = place;
            task.left = duration(shape, op);
        }
    }

    /// The thread, which waited, goes on with the operation at this place of its program. Where that is a sleep the thread
    /// sleeps; else it is ready, with a new stamp. Fewer than 2^63 stamps were given.
    #[inline(always)]
    pub fn go_on(&mut self, x: ThreadId, place: u16, op: &Op, shape: &Shape, now: Nanos)
        requires now { now ≤ last_moment }
        requires short { IsShort op.now }
        requires stamps { self.old.stamps < 2 ^ 63 }
        ensures { self.new ≡ put_on self.old x shape.now place op.now now }
    {
        let task = self.task(x);
        self.set_ready(
            x,
            Task {
                state: state_in(op, now, State::Ready),
                place,
                left: duration(shape, op),
                ..task
            },
        );
    }

    /// The thread is ready, with a new stamp. Fewer than 2^63 stamps were given.
    pub fn ready(&mut self, x: ThreadId)
        requires { self.old.stamps < 2 ^ 63 }
        ensures { self.new ≡ put_back self.old x }
    {
        let stamp = self.next_stamp();
        let index = x.index();
        if index < self.tasks.len() {
            let task = &mut self.tasks[index];
            task.state = State::Ready;
            task.stamp = stamp;
            task.since = 0;
        }
    }

    /// A thread that runs is ready again; if it has this policy and by that its slice is over, with a new stamp. Any other
    /// thread stays as it is. Fewer than 2^63 stamps were given.
    #[inline(always)]
    pub fn give_back(&mut self, x: ThreadId, shape: &Shape, policy: Policy)
        requires stamps { self.old.stamps < 2 ^ 63 }
        requires tick { shape.now.tick ≤ longest_tick }
        ensures { self.new ≡ put_given self.old x shape.now policy (task_in self.old x).state }
    {
        let task = self.task(x);
        let State::Running(_) = task.state else {
            return;
        };
        if is_slice_over(shape, policy, task.since) {
            self.ready(x);
        } else {
            self.set_state(x, State::Ready);
        }
    }

    /// The thread has a new stamp. Fewer than 2^63 stamps were given.
    pub fn restamp(&mut self, x: ThreadId)
        requires { self.old.stamps < 2 ^ 63 }
        ensures { self.new ≡ put_stamped self.old x (task_in self.old x) }
    {
        let stamp = self.next_stamp();
        let index = x.index();
        if index < self.tasks.len() {
            let task = &mut self.tasks[index];
            task.stamp = stamp;
            task.since = 0;
        }
    }

    /// The thread has run for so many ns, and since its stamp at most 20,000,000,000,000 in all. Nothing is left of its
    /// operation where less was.
    #[inline(always)]
    pub fn spend(&mut self, x: ThreadId, ns: Nanos)
        requires { (task_in self.old x).since + ns ≤ 20000000000000 }
        ensures { self.new ≡ put_spent self.old x ns }
    {
        let index = x.index();
        if index < self.tasks.len() {
            let task = &mut self.tasks[index];
            task.left = left_after(&task.left, ns);
            task.since += ns;
        }
    }

    /// The next stamp, which is given by this.
    #[inline(always)]
    fn next_stamp(&mut self) -> u64
        requires { self.old.stamps < 2 ^ 63 }
        ensures stamp { result ≡ self.old.stamps }
        ensures given { self.new ≡ record self.old { stamps = self.old.stamps + 1 } }
    {
        let stamp = self.stamps;
        self.stamps += 1;
        stamp
    }

    /// The thread's task is this one.
    #[inline(always)]
    fn set_task(&mut self, x: ThreadId, task: Task)
        ensures { self.new ≡ put_task self.old x task }
    {
        let index = x.index();
        if index < self.tasks.len() {
            self.tasks[index] = task;
        }
    }

    /// The thread's task is this one, with the next stamp.
    #[inline(always)]
    fn set_stamped(&mut self, x: ThreadId, task: Task)
        requires { self.old.stamps < 2 ^ 63 }
        ensures { self.new ≡ put_stamped self.old x task }
    {
        let stamp = self.next_stamp();
        self.set_task(
            x,
            Task {
                stamp,
                since: 0,
                ..task
            },
        );
    }

    /// The thread's task is this one; if it is ready now, with the next stamp.
    #[inline(always)]
    fn set_ready(&mut self, x: ThreadId, task: Task)
        requires { self.old.stamps < 2 ^ 63 }
        ensures { self.new ≡ put_ready self.old x task task.state }
    {
        let state = task.state;
        match state {
            State::Ready => self.set_stamped(x, task),
            _ => self.set_task(x, task),
        }
    }
}
