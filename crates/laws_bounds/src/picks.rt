//! What a pick tells of the budgets of its partition.
ghost use Rattle.std.specs.Prelude.{◌≡◌, ℕ, ◌/◌, ◌++◌, List, [], ◌∷◌, true, Some, None};
ghost use Rattle.aps_model.specs.declared.entry.Entry.{Entry};
ghost use Rattle.aps_model.specs.declared.entry.Order.{Order};
ghost use Rattle.aps_model.specs.After.{state_after};
ghost use Rattle.aps_model.specs.Scenario.{Scenario};
ghost use Rattle.aps_model.specs.Valid.{IsScenario};
ghost use Rattle.aps_model.specs.Legal.{IsLegal};
ghost use Rattle.laws_bounds.specs.Picks.{HasCriticalLeft, PicksFunded, wide_at};

/// Where no partition with a budget lacks a candidate somebody is picked, critically or in budget, unless the entry
/// stood at the horizon or ended the run.
pub fn steady_pick()
    ensures { (scenario : Scenario) (order : Order) (h : List Entry) (e : Entry)
        → IsScenario scenario
        → IsLegal scenario order (h ++ e ∷ [])
        → e.starved ≡ None
        → PicksFunded scenario h e }
{}

/// A partition that is picked critically has critical budget left.
pub fn critical_pick_stands()
    ensures { (scenario : Scenario) (order : Order) (h : List Entry) (e : Entry) (p : ℕ)
        → IsScenario scenario
        → IsLegal scenario order (h ++ e ∷ [])
        → (wide_at scenario h e).keeps ≡ Some (p, true)
        → HasCriticalLeft h e (state_after scenario (h ++ e ∷ [])) p }
{}
