//! What a scenario says of a thread's program.
ghost use Rattle.std.specs.Prelude.{◌≡◌};
ghost use Rattle.aps_model.specs.Scenario.{op_at, thread_row};
ghost use Rattle.aps_tasks.specs.Kept.{IsShort};

use aps_model::{Op, Policy, Scenario, ThreadId};

/// The operation at a place of the thread's program; past its end that is `Exit`.
pub fn op_at(scenario: &Scenario, x: ThreadId, place: u16) -> Op
    ensures same { result ≡ op_at scenario.now x place }
    ensures short { IsShort result }
{
    let Some(row) = scenario.threads().get(x.index()) else {
        return Op::Exit;
    };
    match row.program.ops().get(usize::from(place)) {
        Some(op) => *op,
        None => Op::Exit,
    }
}

/// The policy of the thread.
pub fn policy_of(scenario: &Scenario, x: ThreadId) -> Policy
    ensures { result ≡ (thread_row scenario.now x).policy }
{
    match scenario.threads().get(x.index()) {
        Some(row) => row.policy,
        None => Policy::Fifo,
    }
}
