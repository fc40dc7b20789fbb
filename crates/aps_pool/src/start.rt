//! How a pool begins: all workers are awake, and each processor has picked one.
ghost use Rattle.std.specs.Prelude.{◌≡◌, ◌<◌, ◌≤◌, length, IfOk};
ghost use Rattle.aps_live.specs.LiveHistory.{NamesThread};
ghost use Rattle.aps_live.specs.Seats.{HasAllCpus, HasCpu, IsSeatOf};
ghost use Rattle.aps_pool.specs.Pool.{IsMadeFor, IsStill};

use crate::error::PoolError;
use crate::pool::WORKERS;
use aps_live::{Live, LiveEvent, LiveSeat, LiveTurn};
use aps_model::{CpuId, ThreadId};
use aps_scenario::scenario_of;
use std::alloc::Global;
use std::sync::Wait;

/// Two processors; `Front` has 70 of 100 parts of them, and `Back` the rest. Nobody's threads are more urgent.
const SCENARIO: &str = r#"version = 1
cpus = 2
window = 10
ticks = 1
partition = [{name = "Front", budget = 70}, {name = "Back", budget = 30}]
thread = [
  {name = "front0", partition = "Front", program = ["run forever"]},
  {name = "front1", partition = "Front", program = ["run forever"]},
  {name = "back0", partition = "Back", program = ["run forever"]},
  {name = "back1", partition = "Back", program = ["run forever"]},
]
"#;

/// How many steps a run may have.
const MOST_STEPS: u32 = 200_000;

/// A scheduler whose workers are awake, the seats of its processors, and whom each of these picked.
#[derive(Drop)]
pub struct Started {
    pub live: Live,
    pub zero: LiveSeat,
    pub one: LiveSeat,
    pub picked: [Option<ThreadId>; 2],
    ghost of: { IsSeatOf live zero × IsSeatOf live one },
    ghost zero_alone: { (zero.first ≡ 0) × (zero.last ≡ 0) },
    ghost one_alone: { (one.first ≡ 1) × (one.last ≡ 1) },
    ghost made_for: { IsMadeFor live },
}

/// Begins a pool.
pub fn start<R: Wait>(rt: &R, alloc: Global) -> Result<Started, PoolError> {
    match opened(alloc) {
        Ok((live, seat)) => Ok(with_all_awake(rt, live, seat)),
        Err(error) => Err(error),
    }
}

/// The scheduler after its first steps.
fn with_all_awake<R: Wait>(rt: &R, live: Live, mut seat: LiveSeat) -> Started
    requires of { IsSeatOf live seat × HasAllCpus seat }
    requires made_for { IsMadeFor live }
{
    let picked_by_zero = wake_all(rt, &live, &mut seat);
    let picked_by_one = step(rt, &live, &mut seat, CpuId::at(1), LiveEvent::Stay);
    let one = live.split(&mut seat, CpuId::at(1));
    Started {
        live,
        zero: seat,
        one,
        picked: [picked_by_zero, picked_by_one],
    }
}

/// The scheduler before its first step.
fn opened(alloc: Global) -> Result<(Live, LiveSeat), PoolError>
    ensures { IfOk result (λ r. IsSeatOf r.0 r.1 × HasAllCpus r.1 × IsMadeFor r.0) }
{
    let scenario = scenario_of(alloc, SCENARIO.as_bytes())?;
    if scenario.shape().cpus != 2 || scenario.threads().len() != WORKERS {
        return Err(PoolError::Scenario);
    }
    Ok(Live::open(alloc, scenario, MOST_STEPS)?)
}

/// Wakes all workers by steps of processor 0, and tells whom it picks then.
fn wake_all<R: Wait>(rt: &R, live: &Live, seat: &mut LiveSeat) -> Option<ThreadId>
    requires of { IsSeatOf live.now seat.old × HasCpu seat.old 0 }
    requires made_for { IsMadeFor live.now }
    ensures { IsStill seat.old seat.new }
{
    let mut picked = None;
    for worker in 0..WORKERS {
        let event = LiveEvent::Wake(ThreadId::at(worker));
        picked = step(rt, live, seat, CpuId::at(0), event);
    }
    picked
}

/// A step at moment 0, and whom it picks.
fn step<R: Wait>(
    rt: &R,
    live: &Live,
    seat: &mut LiveSeat,
    cpu: CpuId,
    event: LiveEvent,
) -> Option<ThreadId>
    requires of { IsSeatOf live.now seat.old × HasCpu seat.old cpu }
    requires named { NamesThread live.now.setup.scenario event }
    ensures of { IsSeatOf live.now seat.new × HasCpu seat.new cpu }
    ensures still { IsStill seat.old seat.new }
{
    match live.live_step(rt, seat, cpu, 0, event) {
        LiveTurn::Took(e) => e.picked,
        LiveTurn::Back { .. } | LiveTurn::Full => None,
    }
}
