//! A run of two processors.
ghost use Rattle.std.specs.Prelude.{◌≤◌};
ghost use Rattle.test_parts.specs.Opened.{HasFour};
ghost use Rattle.aps_live.specs.Seats.{HasAllCpus, IsSeatOf};

use aps_live::{Live, LiveSeat};
use aps_scenario::scenario_of;
use std::alloc::Global;
use std::process::Abort;

const TWO_PROCESSORS: &str = r#"version = 1
cpus = 2
window = 10
ticks = 10
partition = [{name = "A", budget = 50}]
thread = [
  {name = "s0", priority = 20, program = ["run forever"]},
  {name = "s1", priority = 20, program = ["run forever"]},
  {name = "a0", partition = "A", program = ["run forever"]},
  {name = "a1", partition = "A", program = ["run forever"]},
]
"#;

/// The run, with room for 1,000 entries, and the seat of both processors.
pub fn opened(rt: &impl Abort, alloc: Global) -> (Live, LiveSeat)
    ensures { IsSeatOf result.0 result.1 × HasAllCpus result.1 × HasFour result.0 }
{
    let scenario = scenario_of(alloc, TWO_PROCESSORS.as_bytes()).expect(rt, "a scenario");
    assert!(rt; scenario.threads().len() >= 4);
    Live::open(alloc, scenario, 1000).expect(rt, "memory")
}
