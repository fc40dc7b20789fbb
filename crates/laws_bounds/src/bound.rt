//! The bound on a window's usage, and the bound on its critical time.
ghost use Rattle.std.specs.Prelude.{List, ◌/◌};
ghost use Rattle.aps_model.specs.declared.entry.Entry.{Entry};
ghost use Rattle.aps_model.specs.declared.entry.Order.{Order};
ghost use Rattle.aps_model.specs.Scenario.{Scenario};
ghost use Rattle.aps_model.specs.Valid.{IsScenario};
ghost use Rattle.aps_model.specs.Legal.{IsLegal};
ghost use Rattle.aps_model.specs.Bound.{KeepsWindowBound, KeepsCriticalBound};

/// In each finished window of steady ticks a partition's usage exceeds its budget by at most one tick for each
/// processor and its critical time, and falls short by at most the same of all others. For such a window has no change,
/// and is served.
pub fn window_bound()
    ensures { (scenario : Scenario) (order : Order) (h : List Entry)
        → IsScenario scenario
        → IsLegal scenario order h
        → KeepsWindowBound scenario h }
{}

/// In each finished window without a change a partition's critical time exceeds its critical budget by at most one tick
/// for each processor, and there is none where it has no critical budget.
pub fn critical_bound()
    ensures { (scenario : Scenario) (order : Order) (h : List Entry)
        → IsScenario scenario
        → IsLegal scenario order h
        → KeepsCriticalBound scenario h }
{}
