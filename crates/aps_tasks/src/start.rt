//! The threads at the start of a scenario.
ghost use Rattle.std.specs.Prelude.{◌≡◌, ◌≤◌, map, IfOk};
ghost use Rattle.aps_model.specs.Limits.{most_threads};
ghost use Rattle.aps_model.specs.Opening.{first_op, stamp_after, start_stamps, start_threads, started};
ghost use Rattle.aps_tasks.specs.Kept.{IsShort};
ghost use Rattle.aps_tasks.specs.Start.{plan_of, task_of};

use crate::operation::{duration, state_in};
use crate::plan::Plan;
use crate::task::Task;
use aps_model::{NoMemory, Op, Program, Scenario, Shape, State, ThreadId, ThreadRow};
use std::alloc::Global;

/// A thread that begins with a sleep has this stamp and its number, until it wakes.
const FIRST_SLEEPER_STAMP: u64 = 1 << 63;

/// The policies and the programs of these threads.
pub fn copy_plans(alloc: Global, rows: &[ThreadRow]) -> Result<Vec<Plan>, NoMemory>
    ensures { IfOk result (λ plans. plans.items ≡ map plan_of rows.now) }
{
    let mut plans = Vec::with_capacity(alloc, rows.len())?;
    for row in rows {
        let program = Program::new(row.program.ops().to_vec(alloc)?);
        plans.push(Plan {
            policy: row.policy,
            program,
        })?;
    }
    Ok(plans)
}

/// The threads in their first operation, the ready ones with stamps in this order, and the next stamp after them.
pub fn start_tasks(alloc: Global, scenario: &Scenario) -> Result<(Vec<Task>, u64), NoMemory>
    ensures tasks { IfOk result (λ r. r.0.items ≡ map task_of (start_threads scenario.now.shape 0 0 scenario.now.threads)) }
    ensures stamps { IfOk result (λ r. r.1 ≡ start_stamps 0 scenario.now.threads) }
{
    let rows = scenario.threads();
    let mut tasks = Vec::with_capacity(alloc, rows.len())?;
    let mut next = 0;
    for row in rows {
        let x = ThreadId::at(tasks.len());
        let task = started(scenario.shape(), x, next, row);
        next = stamp_after(&task.state, next);
        tasks.push(task)?;
    }
    Ok((tasks, next))
}

/// A thread in its first operation, which it enters at 0.
fn started(shape: &Shape, x: ThreadId, next: u64, row: &ThreadRow) -> Task
    requires { IsShort (first_op row.now) }
    ensures { result ≡ task_of (started shape.now x next row.now) }
{
    let op = first_op(row);
    let state = state_in(&op, 0, State::Ready);
    let stamp = match state {
        State::Ready => next,
        _ => FIRST_SLEEPER_STAMP + x.index() as u64,
    };
    Task {
        state,
        place: 0,
        left: duration(shape, &op),
        stamp,
        since: 0,
    }
}

/// The first operation of a program.
fn first_op(row: &ThreadRow) -> Op
    ensures { result ≡ first_op row.now }
{
    match row.program.ops().get(0) {
        Some(op) => *op,
        None => Op::Exit,
    }
}

/// The next stamp after a thread that has started.
fn stamp_after(state: &State, next: u64) -> u64
    requires { next ≤ most_threads }
    ensures { result ≡ stamp_after state.now next }
{
    match state {
        State::Ready => next + 1,
        _ => next,
    }
}
