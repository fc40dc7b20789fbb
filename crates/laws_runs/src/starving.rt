//! When nobody is starved.
ghost use Rattle.std.specs.Prelude.{◌≡◌, List, [], ◌∷◌, ◌++◌, None, ◌/◌};
ghost use Rattle.aps_model.specs.declared.entry.Entry.{Entry};
ghost use Rattle.aps_model.specs.declared.entry.Order.{Order};
ghost use Rattle.aps_model.specs.Scenario.{Scenario};
ghost use Rattle.aps_model.specs.Valid.{IsScenario};
ghost use Rattle.aps_model.specs.After.{state_after};
ghost use Rattle.aps_model.specs.Legal.{IsLegal};
ghost use Rattle.laws_runs.specs.Starving.{HasEnough};

/// Where there is no limit, and as many threads of each partition with a budget, by inheritance, are ready or run as
/// there are processors, the entry tells of nobody that is starved.
pub fn enough_threads()
    ensures { (scenario : Scenario) (order : Order) (h : List Entry) (e : Entry)
        → IsScenario scenario
        → IsLegal scenario order (h ++ e ∷ [])
        → HasEnough (state_after scenario (h ++ e ∷ []))
        → e.starved ≡ None }
{}
