//! First steps of the run of two processors, in turn and out of turn.
ghost use Rattle.std.specs.Prelude.{◌<◌};

use super::TWO_PROCESSORS;
use aps_core::{Core, Turn};
use aps_model::{CpuId, Done, End, Entry, Order, ThreadId};
use aps_scenario::scenario_of;
use std::alloc::Global;
use std::process::Abort;

/// The run of two processors at its start.
fn booted(rt: &impl Abort, alloc: Global, order: Order) -> Core
    ensures { 1 < result.setup.scenario.shape.cpus }
{
    let scenario = scenario_of(alloc, TWO_PROCESSORS.as_bytes()).expect(rt, "a scenario");
    assert!(rt; scenario.shape().cpus == 2);
    Core::boot(alloc, scenario, order, 1000).expect(rt, "memory")
}

/// The first entry of a processor, which picked thread 0: `0` for its times, and nobody ran.
fn first_entry(cpu: CpuId) -> Entry {
    Entry {
        cpu,
        from: 0,
        to: 0,
        ran: None,
        billed: None,
        critical: false,
        done: Done::Nothing,
        picked: Some(ThreadId::at(0)),
        starved: None,
        flagged: None,
    }
}

/// Processor 1 steps first, in a run in this order.
fn second_steps_first(rt: &impl Abort, alloc: Global, order: Order) -> (Turn, Core) {
    let mut core = booted(rt, alloc, order);
    let turn = core.step(CpuId::at(1));
    (turn, core)
}

#[test]
fn in_fixed_order_the_second_processor_waits(rt: HostRuntime) {
    let (turn, mut core) = second_steps_first(&rt, rt.alloc(), Order::Fixed);
    let cpu = CpuId::at(0);
    assert_eq!(rt; turn, Turn::NotYet { cpu, due: 0 });
    assert!(rt; core.history().entries().is_empty());
    assert_eq!(rt; core.ended(), None);

    let mut other = booted(&rt, rt.alloc(), Order::Fixed);
    assert_eq!(rt; other.finish(), End::Horizon);
    assert_eq!(rt; core.finish(), End::Horizon);
    assert_eq!(rt; core.history().entries()[0], first_entry(cpu));
    assert_eq!(rt; core.history().entries().len(), 23);
    assert!(rt; core.history().entries() == other.history().entries());
}

#[test]
fn in_free_order_the_second_processor_may_begin(rt: HostRuntime) {
    let (turn, core) = second_steps_first(&rt, rt.alloc(), Order::Free);
    let cpu = CpuId::at(1);
    assert_eq!(rt; turn, Turn::Took(first_entry(cpu)));
    let entries = core.history().entries();
    assert_eq!(rt; entries.len(), 1);
    assert!(rt; entries[0] == first_entry(cpu));
}
