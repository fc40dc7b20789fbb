//! Moments, dues and flags of a legal history.
ghost use Rattle.std.specs.Prelude.{◌≤◌, All, List, [], ◌∷◌, ◌++◌, ◌/◌};
ghost use Rattle.aps_model.specs.declared.entry.Entry.{Entry};
ghost use Rattle.aps_model.specs.declared.entry.Order.{Order};
ghost use Rattle.aps_model.specs.Scenario.{Scenario};
ghost use Rattle.aps_model.specs.Valid.{IsScenario};
ghost use Rattle.aps_model.specs.After.{state_after};
ghost use Rattle.aps_model.specs.Legal.{IsLegal};
ghost use Rattle.aps_model.specs.History.{IsEntry};
ghost use Rattle.laws_runs.specs.Boundaries.{MeetsBoundaries, EndsInTick};
ghost use Rattle.laws_runs.specs.Moments.{IsTimely, moment};
ghost use Rattle.laws_runs.specs.Sound.{IsNext};

/// No due lies in the past, no end in the future, and a flag stands only at the last moment.
pub fn dues_lie_ahead()
    ensures { (scenario : Scenario) (order : Order) (h : List Entry)
        → IsScenario scenario
        → IsLegal scenario order h
        → IsTimely (state_after scenario h) h }
{}

/// Moments never fall, flags are served at their moment, nobody is overtaken or passes the horizon, and each entry
/// joins the last one of its processor and lies within one tick.
pub fn moments_rise()
    ensures { (scenario : Scenario) (order : Order) (h : List Entry) (e : Entry)
        → IsScenario scenario
        → IsLegal scenario order (h ++ e ∷ [])
        → IsNext (state_after scenario h) h e }
{}

/// The moments of each entry have their bounds: it ends at most at 10,000,000,000,000 ns, and at most a tick after its
/// beginning.
pub fn entries_fit()
    ensures { (scenario : Scenario) (order : Order) (h : List Entry) → IsScenario scenario → IsLegal scenario order h → All IsEntry h }
{}

/// No entry ends after the last one.
pub fn last_is_latest()
    ensures { (scenario : Scenario) (order : Order) (h : List Entry)
        → IsScenario scenario
        → IsLegal scenario order h
        → All (λ e. e.to ≤ moment h) h }
{}

/// Each processor steps at every boundary that it passes, every processor at each boundary that the run passes, and at
/// the horizon every one has stepped at each boundary.
pub fn boundaries_met()
    ensures { (scenario : Scenario) (order : Order) (h : List Entry)
        → IsScenario scenario
        → IsLegal scenario order h
        → MeetsBoundaries (state_after scenario h) h }
{}

/// An entry inside a tick lies in the tick of the last moment; the first at a boundary begins the next tick, so that no
/// tick is jumped.
pub fn ticks_step_by_one()
    ensures { (scenario : Scenario) (order : Order) (h : List Entry) (e : Entry)
        → IsScenario scenario
        → IsLegal scenario order (h ++ e ∷ [])
        → EndsInTick scenario.shape.tick h e }
{}
