//! The run of a scenario with a thread for each processor.
ghost use Rattle.std.specs.Prelude.{◌≡◌};

use aps_core::Core;
use aps_cpu::{Gate, run_all};
use aps_lock::Dispatch;
use std::alloc::Global;
use std::sync::Wait;
use std::thread::Threads;

/// Takes the turns of all processors, each in a thread of its own, until the run has ended. Where there is no memory for
/// a dispatcher the core comes back as it was.
pub fn run_on_threads<R: Threads + Wait + Sync, G: Gate + Sync>(
    rt: &R,
    alloc: Global,
    core: Core,
    gate: &G,
) -> Core
    ensures { result.setup ≡ core.setup }
{
    match Dispatch::open(alloc, core) {
        Ok((dispatch, seat)) => run_all(rt, alloc, dispatch, seat, gate),
        Err(core) => core,
    }
}
