//! The threads that may call.
ghost use Rattle.std.specs.Prelude.{◌≡◌, ◌<◌, length, IfOk};
ghost use Rattle.view_latency.specs.Callers as spec;

use aps_model::{NoMemory, Op, Scenario};
use std::alloc::Global;

/// The numbers of the threads of a scenario whose programs have a send, in order: nobody else ever calls. `NoMemory` comes where
/// memory runs out.
pub fn all_callers(alloc: Global, scenario: &Scenario) -> Result<Vec<usize>, NoMemory>
    ensures { IfOk result (λ callers. spec.AreCallers scenario.now callers.items) }
{
    let mut callers = Vec::new(alloc);
    for x in 0..scenario.threads().len() {
        if may_call(scenario, x) {
            callers.push(x)?;
        }
    }
    Ok(callers)
}

/// Whether the program of a thread has a send.
fn may_call(scenario: &Scenario, x: usize) -> bool
    requires { x < length scenario.now.threads }
    ensures { result ≡ spec.may_call scenario.now x }
{
    let ops = scenario.threads()[x].program.ops();
    has_send(ops)
}

/// Whether one of these is a send.
fn has_send(ops: &[Op]) -> bool
    ensures { result ≡ spec.has_send ops.now }
{
    ops.iter().any(|op| is_send_op(op))
}

fn is_send_op(op: &Op) -> bool
    ensures { result ≡ spec.is_send_op op.now }
{
    matches!(op, Op::Send(_))
}
