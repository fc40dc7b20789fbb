//! What the partitions of the greatest shape may use.
ghost use Rattle.std.specs.Prelude.{◌<◌, ◌≤◌};
ghost use Rattle.aps_model.specs.Limits.{most_used, thousandths};
ghost use Rattle.aps_model.specs.Shape.{IsShape};

use aps_model::{Nanos, Shape, has_allowance};
use aps_scenario::scenario_of;

/// The greatest tick, window and number of processors and of partitions.
const GREATEST_SHAPE: &str = r#"version = 1
cpus = 16
tick = 10000000
window = 400
ticks = 2
partition = [
  {name = "P1", budget = 1}, {name = "P2", budget = 1}, {name = "P3", budget = 1},
  {name = "P4", budget = 1}, {name = "P5", budget = 1}, {name = "P6", budget = 1},
  {name = "P7", budget = 1}, {name = "P8", budget = 1}, {name = "P9", budget = 1},
  {name = "P10", budget = 1}, {name = "P11", budget = 1}, {name = "P12", budget = 1},
  {name = "P13", budget = 1}, {name = "P14", budget = 1}, {name = "P15", budget = 1},
  {name = "P16", budget = 1}, {name = "P17", budget = 1}, {name = "P18", budget = 1},
  {name = "P19", budget = 1}, {name = "P20", budget = 1}, {name = "P21", budget = 1},
  {name = "P22", budget = 1}, {name = "P23", budget = 1}, {name = "P24", budget = 1},
  {name = "P25", budget = 1}, {name = "P26", budget = 1}, {name = "P27", budget = 1},
  {name = "P28", budget = 1}, {name = "P29", budget = 1}, {name = "P30", budget = 1},
  {name = "P31", budget = 1},
]
"#;

/// Whether a budget allows usages below this time, in ns, and no usage from it on.
fn allows(shape: &Shape, budget: u16, time: Nanos) -> bool
    requires some { 0 < time }
    requires few { time ≤ most_used }
    requires budget { budget ≤ thousandths }
    requires shape { IsShape shape.now }
{
    has_allowance(time - 1, budget, shape) && !has_allowance(time, budget, shape)
}

/// Sixteen processors have 64,000,000,000 ns in 400 ticks: 69 parts of them for `System`, and one for each other partition.
#[test]
fn all_partitions_share_the_greatest_window(rt: HostRuntime) {
    let scenario = scenario_of(rt.alloc(), GREATEST_SHAPE.as_bytes()).expect(&rt, "a scenario");
    let rows = scenario.partitions();
    assert_eq!(rt; rows.len(), 32);
    assert!(rt; rows[0].budget <= 100);
    assert!(rt; allows(scenario.shape(), rows[0].budget, 44_160_000_000));
    for row in &rows[1..] {
        assert!(rt; row.budget <= 100);
        assert!(rt; allows(scenario.shape(), row.budget, 640_000_000));
    }
}
