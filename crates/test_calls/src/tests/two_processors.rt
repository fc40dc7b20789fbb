//! The run of two processors, and its dispatcher.
ghost use Rattle.aps_cpu.specs.Row.{IsDrivable};
ghost use Rattle.aps_lock.specs.Seats.{HasAllCpus};

use super::TWO_PROCESSORS;
use aps_core::Core;
use aps_lock::{CpuSeat, Dispatch};
use aps_model::Order;
use aps_scenario::scenario_of;
use std::alloc::Global;
use std::process::Abort;

/// The run of a scenario at its start, with room for 1,000 entries.
fn booted(rt: &impl Abort, alloc: Global, text: &str, order: Order) -> Core {
    let scenario = scenario_of(alloc, text.as_bytes()).expect(rt, "a scenario");
    Core::boot(alloc, scenario, order, 1000).expect(rt, "memory")
}

/// The dispatcher of a run, and the seat of all its processors.
fn dispatched(rt: &impl Abort, alloc: Global, core: Core) -> (Dispatch, CpuSeat)
    ensures { IsDrivable result.0 result.1 × HasAllCpus result.1 }
{
    match Dispatch::open(alloc, core) {
        Ok(opened) => opened,
        Err(_) => panic!(rt; "memory"),
    }
}

/// The dispatcher of the run of two processors at its start, and the seat of both processors.
pub fn opened(rt: &impl Abort, alloc: Global, order: Order) -> (Dispatch, CpuSeat)
    ensures { IsDrivable result.0 result.1 × HasAllCpus result.1 }
{
    dispatched(rt, alloc, booted(rt, alloc, TWO_PROCESSORS, order))
}
