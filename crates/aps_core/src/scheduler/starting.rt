//! What stands beside a machine at its start: its window, and its queues.
ghost use Rattle.std.specs.Prelude.{◌≡◌, IfOk};
ghost use Rattle.std.specs.List.{enumerate_from};
ghost use Rattle.aps_window.specs.Window.{opened};
ghost use Rattle.laws_runs.specs.Stamps.{IsStamped};
ghost use Rattle.aps_core.specs.Counts.{parts_in};
ghost use Rattle.aps_core.specs.Seats.{seats_of};
ghost use Rattle.aps_core.specs.Sleepers.{sleepers_of};

use crate::machine::Machine;
use crate::machine::wake::Woken;
use crate::standing::Standing;
use aps_ctl::Ctl;
use aps_model::{NoMemory, Scenario};
use aps_ready::Ready;
use aps_timer::Timer;
use aps_window::Window;
use std::alloc::Global;

/// The window of a run, in which nothing is billed yet, and how its partitions stand by it.
pub fn start_window(
    alloc: Global,
    machine: &Machine,
    scenario: &Scenario,
) -> Result<(Window, Standing), NoMemory>
    ensures window { IfOk result (λ r. r.0 ≡ opened scenario.now.shape.window) }
    ensures standing { IfOk result (λ r. r.1 ≡ parts_in machine.now.shape machine.now.rows r.0) }
{
    let window = Window::new(alloc, scenario.shape().window)?;
    let standing = machine.start_standing(alloc, &window)?;
    Ok((window, standing))
}

/// The ready threads in their queues, the sleeping ones in their timer, nobody woken, and all commands to come.
pub fn start_queues(
    alloc: Global,
    machine: &Machine,
    scenario: &Scenario,
) -> Result<(Ready, Timer, Woken, Ctl), NoMemory>
    requires { IsStamped machine.now.threads machine.now.stamps }
    ensures ready { IfOk result (λ r. r.0 ≡ seats_of machine.now) }
    ensures timer { IfOk result (λ r. r.1 ≡ sleepers_of machine.now) }
    ensures ctl { IfOk result (λ r. r.3 ≡ enumerate_from 0 scenario.now.commands) }
{
    let ready = machine.start_ready(alloc)?;
    let timer = machine.start_timer(alloc)?;
    let woken = Woken::new(alloc)?;
    let ctl = Ctl::new(alloc, scenario)?;
    Ok((ready, timer, woken, ctl))
}
