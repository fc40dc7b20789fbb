//! The least budgets of all demands.
ghost use Rattle.std.specs.Prelude.{◌≡◌, ◌<◌, ◌≤◌, ◌+◌, All, IfOk, length, map, sum_by};
ghost use Rattle.aps_model.specs.declared.demand.Demand.{Demand};
ghost use Rattle.aps_model.specs.Limits.{most_demands, thousandths};
ghost use Rattle.aps_model.specs.Shape.{IsShape};
ghost use Rattle.aps_admit.specs.Admission.{IsNeed, Meets, admission, budget_for, granted};

use crate::admission::{Admission, Granted, Grants};
use crate::least::{allowance, least_budget, total_slack};
use aps_model::{Demand, NoMemory, Shape};
use std::alloc::Global;

/// The least budgets by which a scenario of this shape meets these demands, each in a partition of its own under the
/// root. The shape has its ranges, there are at most 31 demands, and a need is at most 64,000,000,000 ns in a window.
///
/// `Budgets` comes exactly where the least budgets sum to at most all parts, in the order of the demands: each is the
/// least whose allowance is at least the need and one tick of each processor for each demand. `Needs` comes exactly
/// where they sum to more. `NoMemory` comes where memory runs out.
pub fn admit(alloc: Global, shape: &Shape, demands: &[Demand]) -> Result<Admission, NoMemory>
    requires shape { IsShape shape.now }
    requires few { length demands.now ≤ most_demands }
    requires needs { All IsNeed demands.now }
    ensures exact { IfOk result (λ answer. answer ≡ admission shape.now demands.now) }
    ensures certified { IfOk result (λ answer. Meets shape.now demands.now answer) }
{
    let slack = total_slack(shape, demands.len());
    let sum = sum_of_budgets(shape, slack, demands);
    if sum > u32::from(shape.parts) {
        return Ok(Admission::Needs { sum });
    }
    let grants = grants_of(alloc, shape, slack, demands)?;
    Ok(Admission::Budgets(grants))
}

/// The sum of the budgets of these demands, in parts.
fn sum_of_budgets(shape: &Shape, slack: u64, demands: &[Demand]) -> u32
    requires shape { IsShape shape.now }
    requires some { 0 < length demands.now → 0 < slack }
    requires short { slack ≤ 4960000000 }
    requires few { length demands.now ≤ most_demands }
    requires needs { All IsNeed demands.now }
    ensures { result ≡ sum_by (budget_for shape.now slack) demands.now }
{
    let mut sum = 0;
    for demand in demands {
        sum += least_budget(shape, demand.need + slack) as u32;
    }
    sum
}

/// The budgets of these demands.
fn grants_of(
    alloc: Global,
    shape: &Shape,
    slack: u64,
    demands: &[Demand],
) -> Result<Grants, NoMemory>
    requires shape { IsShape shape.now }
    requires some { 0 < length demands.now → 0 < slack }
    requires short { slack ≤ 4960000000 }
    requires within { sum_by (budget_for shape.now slack) demands.now ≤ thousandths }
    requires needs { All IsNeed demands.now }
    ensures { IfOk result (λ grants. grants ≡ map (granted shape.now slack) demands.now) }
{
    let mut grants = Vec::with_capacity(alloc, demands.len())?;
    for demand in demands {
        grants.push(granted(shape, slack, demand))?;
    }
    Ok(Grants::new(grants))
}

/// The budget of a demand, which is no more than all parts.
fn granted(shape: &Shape, slack: u64, demand: &Demand) -> Granted
    requires shape { IsShape shape.now }
    requires some { 0 < slack }
    requires short { slack ≤ 4960000000 }
    requires few { budget_for shape.now slack demand.now ≤ thousandths }
    requires need { IsNeed demand.now }
    ensures { result ≡ granted shape.now slack demand.now }
{
    let budget = least_budget(shape, demand.need + slack);
    Granted {
        name: demand.name,
        budget: budget as u16,
        allowance: allowance(shape, budget),
        below: allowance(shape, budget - 1),
    }
}
