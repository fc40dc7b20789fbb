//! Ticks in which every pick is of class 1: of a thread whose partition is in budget, or of a critical one.
ghost use Rattle.std.specs.Prelude.{List, ◌/◌};
ghost use Rattle.aps_model.specs.declared.entry.Entry.{Entry};
ghost use Rattle.aps_model.specs.declared.entry.Order.{Order};
ghost use Rattle.aps_model.specs.Scenario.{Scenario};
ghost use Rattle.aps_model.specs.Valid.{IsScenario};
ghost use Rattle.aps_model.specs.Legal.{IsLegal};
ghost use Rattle.laws_bounds.specs.Served.{FillsServed, HasNoFreeTime, KeepsServedBound, ServesSteady};

/// A partition that no entry of some ticks picks in free time has no free time in them. So in the upper line of the excess
/// nothing is left for it but its critical time and one tick for each processor.
pub fn free_picks_make_free_time()
    ensures { (scenario : Scenario) (order : Order) (h : List Entry)
        → IsScenario scenario
        → IsLegal scenario order h
        → HasNoFreeTime scenario h }
{}

/// In served ticks there is no free time, and no processor stands idle.
pub fn served_is_full()
    ensures { (scenario : Scenario) (order : Order) (h : List Entry)
        → IsScenario scenario
        → IsLegal scenario order h
        → FillsServed scenario h }
{}

/// So a finished window of served ticks without a change keeps the window bound: usage exceeds a budget by at most one
/// tick for each processor and critical time, and falls short by at most the same of all others. Partitions that sleep
/// don't spoil it, as long as each pick finds somebody of class 1.
pub fn served_window_bound()
    ensures { (scenario : Scenario) (order : Order) (h : List Entry)
        → IsScenario scenario
        → IsLegal scenario order h
        → KeepsServedBound scenario h }
{}

/// Where no partition with a budget lacks a candidate at a pick of finished ticks, these are served.
pub fn steady_is_served()
    ensures { (scenario : Scenario) (order : Order) (h : List Entry)
        → IsScenario scenario
        → IsLegal scenario order h
        → ServesSteady scenario h }
{}
