//! The threads of a run, and the calls that change one of them.
ghost use Rattle.std.specs.Prelude.{◌≡◌, ◌≢◌, ◌↔◌, ◌+◌, ◌<◌, ◌≤◌, ◌^◌, length, IfOk, IfSome, None};
ghost use Rattle.aps_model.specs.Limits.{last_moment, most_operations};
ghost use Rattle.aps_model.specs.declared.program.Op.TheVariants.{Exit, Forever};
ghost use Rattle.aps_model.specs.declared.state.State.TheVariants.{Gone, Running};
ghost use Rattle.aps_tasks.specs.Calls.{operation_advanced, given_back, is_over, left_after, made_ready, restamped, sleep_end, time_passed};
ghost use Rattle.aps_tasks.specs.Kept.{IsLeft, IsShort, IsTasks};
ghost use Rattle.aps_tasks.specs.Start.{start_tasks};
ghost use Rattle.aps_tasks.specs.Tasks.{planned_op, op_of, plan_at, task_at, tasks_with_stamped, tasks_with_state, with_task};

use crate::operation::{is_over, left_after, place_after, sleep_end};
use crate::plan::Plan;
use crate::start::copy_plans;
use crate::table::TaskTable;
use crate::task::Task;
use aps_model::{CpuId, Nanos, NoMemory, Op, Policy, Scenario, Shape, State, ThreadId};
use std::alloc::Global;
use std::marker::Model;

/// The threads of a run as they go through their programs. Contracts see the shape at the start, of which the tick and
/// the time of a call count, the policy and the program of each thread, the task of each thread, and the next stamp.
/// The type keeps that stamps are distinct. Where there is no such thread, it counts as gone, at the end of its program,
/// and no call changes it. All memory is taken when the threads are made.
pub struct Tasks {
    shape: Shape,
    plans: Vec<Plan>,
    table: TaskTable,
}

// Written out, so that it is proved here alone: a derived drop is proved again in each crate that lets a value go.
impl Drop for Tasks {
    fn drop(self) {
        let Self {
            shape: _,
            plans: _,
            table: _,
        } = self;
    }
}

impl Model for Tasks {
    ghost use Rattle.aps_tasks.specs.Tasks.{Tasks as Plain};

    ghost Value = { Plain };

    ghost use Rattle.aps_tasks.specs.TasksView.{tasks_of, KeepsTasks};

    ghost view = { tasks_of };

    ghost invariant = { KeepsTasks };
}

impl Tasks {
    /// Each thread of the scenario in its first operation, entered at 0; the ready ones have the stamps from 0 on, in
    /// order of the scenario. `NoMemory` comes where there is no room.
    pub fn new(alloc: Global, scenario: &Scenario) -> Result<Tasks, NoMemory>
        ensures same { IfOk result (λ t. t ≡ start_tasks scenario.now) }
        ensures keeps { IfOk result (λ t. IsTasks t) }
    {
        let plans = copy_plans(alloc, scenario.threads())?;
        let table = TaskTable::new(alloc, scenario)?;
        let shape = *scenario.shape();
        Ok(Tasks {
            shape,
            plans,
            table,
        })
    }

    /// The thread's state.
    pub fn state(&self, x: ThreadId) -> State
        ensures { result ≡ (task_at self.now x).state }
    {
        self.task(x).state
    }

    /// The thread's stamp, which no other thread has.
    pub fn stamp(&self, x: ThreadId) -> u64
        ensures same { result ≡ (task_at self.now x).stamp }
        ensures keeps { IsTasks self.now }
    {
        self.task(x).stamp
    }

    /// The thread's operation; past the end of its program that is `Exit`.
    pub fn op(&self, x: ThreadId) -> Op
        ensures { result ≡ op_of self.now x }
    {
        self.op_at(x, self.task(x).place)
    }

    /// What remains of the thread's operation, in ns. There is nothing exactly where that is `Forever`.
    pub fn remaining(&self, x: ThreadId) -> Option<Nanos>
        ensures same { result ≡ (task_at self.now x).left }
        ensures forever { x < length self.now.tasks → ((result ≡ None) ↔ (op_of self.now x ≡ Forever)) }
    {
        self.task(x).left
    }

    /// The thread enters its next operation now, in ns, at most 10,000,000,000,000: the first one after `Repeat`, else
    /// the one behind. Where that is a sleep the thread sleeps, and the answer is the moment until which it does; else
    /// it stays in its state, and there is none. Its operation isn't `Forever` or `Exit`.
    pub fn advance(&mut self, x: ThreadId, now: Nanos) -> Option<Nanos>
        requires forever { op_of self.old x ≢ Forever }
        requires exit { op_of self.old x ≢ Exit }
        requires now { now ≤ last_moment }
        ensures thread { self.new ≡ operation_advanced self.old x now }
        ensures until { result ≡ sleep_end (op_of self.new x) now }
    {
        let task = self.task(x);
        let place = place_after(&self.op_at(x, task.place), task.place);
        let op = self.op_at(x, place);
        self.table.enter(x, place, &op, &self.shape, now);
        sleep_end(&op, now)
    }

    /// The thread is ready, with a new stamp. Fewer than 2^63 stamps were given.
    pub fn ready(&mut self, x: ThreadId)
        requires { self.old.stamps < 2 ^ 63 }
        ensures { self.new ≡ made_ready self.old x }
    {
        self.table.ready(x);
    }

    /// A thread that runs is ready again; if it is round-robin and ran for four ticks or more since its stamp, with a
    /// new one. Any other thread stays as it is. Fewer than 2^63 stamps were given.
    pub fn give_back(&mut self, x: ThreadId)
        requires { self.old.stamps < 2 ^ 63 }
        ensures { self.new ≡ given_back self.old x (task_at self.old x).state }
    {
        let policy = self.policy(x);
        self.table.give_back(x, &self.shape, policy);
    }

    /// The thread runs on the processor.
    pub fn run(&mut self, x: ThreadId, cpu: CpuId)
        ensures { self.new ≡ tasks_with_state self.old x (Running cpu) }
    {
        self.set_state(x, State::Running(cpu));
    }

    /// The thread waits in this state.
    pub fn block(&mut self, x: ThreadId, state: State)
        ensures { self.new ≡ tasks_with_state self.old x state }
    {
        self.set_state(x, state);
    }

    /// The thread has a new stamp. Fewer than 2^63 stamps were given.
    pub fn restamp(&mut self, x: ThreadId)
        requires { self.old.stamps < 2 ^ 63 }
        ensures { self.new ≡ restamped self.old x }
    {
        self.table.restamp(x);
    }

    /// The thread is gone.
    pub fn exit(&mut self, x: ThreadId)
        ensures { self.new ≡ tasks_with_state self.old x Gone }
    {
        self.set_state(x, State::Gone);
    }

    /// The thread has run for so many ns, at most what remains of its operation, and since its stamp at most
    /// 10,000,000,000,000 in all. The answer is whether its operation is over.
    pub fn spend(&mut self, x: ThreadId, ns: Nanos) -> bool
        requires left { IfSome (task_at self.old x).left (λ left. ns ≤ left) }
        requires since { (task_at self.old x).since + ns ≤ last_moment }
        ensures thread { self.new ≡ time_passed self.old x ns }
        ensures over { result ≡ is_over (left_after (task_at self.old x).left ns) }
    {
        let left = left_after(&self.task(x).left, ns);
        self.table.spend(x, ns);
        is_over(&left)
    }

    /// The thread's task.
    fn task(&self, x: ThreadId) -> Task
        ensures same { result ≡ task_at self.now x }
        ensures left { x < length self.now.tasks → IsLeft (planned_op self.now x result.place) result.left }
        ensures keeps { IsTasks self.now }
    {
        self.table.task(x)
    }

    /// The thread's policy.
    fn policy(&self, x: ThreadId) -> Policy
        ensures { result ≡ (plan_at self.now x).policy }
    {
        match self.plans.get(x.index()) {
            Some(plan) => plan.policy,
            None => Policy::Fifo,
        }
    }

    /// The operation at a place of the thread's program; past its end that is `Exit`.
    fn op_at(&self, x: ThreadId, place: u16) -> Op
        ensures same { result ≡ planned_op self.now x place }
        ensures short { IsShort result }
        ensures few { result ≢ Exit → place < most_operations }
    {
        let Some(plan) = self.plans.get(x.index()) else {
            return Op::Exit;
        };
        match plan.program.ops().get(usize::from(place)) {
            Some(op) => *op,
            None => Op::Exit,
        }
    }

    /// The thread is in this state from now on.
    fn set_state(&mut self, x: ThreadId, state: State)
        ensures { self.new ≡ tasks_with_state self.old x state }
    {
        self.table.set_state(x, state);
    }
}
