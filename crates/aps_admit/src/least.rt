//! What a budget gives, and the least budget that gives some time.
ghost use Rattle.std.specs.Prelude.{◌≡◌, ◌<◌, ◌≤◌};
ghost use Rattle.aps_model.specs.Limits.{most_demands, thousandths};
ghost use Rattle.aps_model.specs.Shape.{IsShape};
ghost use Rattle.aps_admit.specs.Least.{total_slack, allowance, least_budget};

use aps_model::Shape;

/// The slack of so many demands: one tick of each processor for each of them, in ns.
pub fn total_slack(shape: &Shape, demands: usize) -> u64
    requires shape { IsShape shape.now }
    requires few { demands ≤ most_demands }
    ensures same { result ≡ total_slack shape.now demands }
    ensures some { 0 < demands → 0 < result }
    ensures short { result ≤ 4960000000 }
{
    demands as u64 * u64::from(shape.cpus) * shape.tick
}

/// What so many parts give in a window, in whole ns.
pub fn allowance(shape: &Shape, budget: u64) -> u64
    requires shape { IsShape shape.now }
    requires few { budget ≤ thousandths }
    ensures { result ≡ allowance shape.now budget }
{
    budget * shape.whole() / u64::from(shape.parts)
}

/// The least budget that gives this time in a window, in parts. It may be more than all parts.
pub fn least_budget(shape: &Shape, time: u64) -> u64
    requires shape { IsShape shape.now }
    requires some { 0 < time }
    requires short { time ≤ 68960000000 }
    ensures same { result ≡ least_budget shape.now time }
    ensures some { 0 < result }
    ensures few { result ≤ 86200001 }
{
    (u64::from(shape.parts) * time).div_ceil(shape.whole())
}
