//! What is seen of the threads that may call, before the next step.
ghost use Rattle.std.specs.Prelude.{◌≡◌, ◌<◌, All, length, IfOk};
ghost use Rattle.aps_core.specs.Run.{state_of_run};
ghost use Rattle.view_latency.specs.Seen as spec;
ghost use Rattle.aps_model.specs.Limits.{most_threads};

use aps_core::Core;
use aps_model::{NoMemory, State, ThreadId};
use std::alloc::Global;

/// What the next entry can tell of: a thread runs, at this place of its program; its message waits; it waits for the reply of this
/// server; or it does something else.
#[derive(Clone, Copy)]
pub enum Seen {
    Runs { place: u16 },
    Sends,
    Waits { server: ThreadId },
    Other,
}

/// What is seen of a thread.
pub fn seen_of(core: &Core, x: ThreadId) -> Seen
    ensures { result ≡ spec.seen_of (state_of_run core.now) x }
{
    let thread = core.thread(x);
    seen_in(thread.place, &thread.state)
}

/// What is seen of a thread that is at this place of its program and in this state.
fn seen_in(place: u16, state: &State) -> Seen
    ensures { result ≡ spec.seen_in place state.now }
{
    match state {
        State::Running(_) => Seen::Runs { place },
        State::Sending(_) => Seen::Sends,
        State::Replying(server) => Seen::Waits { server: *server },
        _ => Seen::Other,
    }
}

/// What is seen of each of these threads. `NoMemory` comes where memory runs out.
pub fn all_seen(alloc: Global, core: &Core, callers: &[usize]) -> Result<Vec<Seen>, NoMemory>
    requires { All (λ x. x < most_threads) callers.now }
    ensures { IfOk result (λ seen. spec.AreSeen (state_of_run core.now) callers.now seen.items) }
{
    let mut seen = Vec::with_capacity(alloc, callers.len())?;
    for k in 0..callers.len() {
        seen.push(seen_of(core, ThreadId::at(callers[k])))?;
    }
    Ok(seen)
}
