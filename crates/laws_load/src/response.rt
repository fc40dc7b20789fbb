//! How soon a thread of class 1 runs: one whose partition is in budget, or a critical one whose partition has critical
//! budget left.
ghost use Rattle.std.specs.Prelude.{◌≡◌, ℕ, List, [], ◌∷◌, ◌++◌, ◌/◌};
ghost use Rattle.aps_model.specs.declared.entry.Entry.{Entry};
ghost use Rattle.aps_model.specs.declared.entry.Order.{Order};
ghost use Rattle.aps_model.specs.After.{state_after};
ghost use Rattle.aps_model.specs.Scenario.{Scenario};
ghost use Rattle.aps_model.specs.Valid.{IsScenario};
ghost use Rattle.aps_model.specs.Legal.{IsLegal};
ghost use Rattle.laws_load.specs.Passing.{PassesTime};
ghost use Rattle.laws_load.specs.Response.{ClassOneMayRun, IsResponsive, class_now};

/// A thread of class 1 is never kept from running by the limit, under any policy.
pub fn class_one_may_run()
    ensures { (scenario : Scenario) (order : Order) (h : List Entry)
        → IsScenario scenario
        → IsLegal scenario order h
        → ClassOneMayRun (state_after scenario h) h }
{}

/// While time passes, a thread of class 1 either runs, or every processor runs a thread of class 1 with at least its
/// priority. So where fewer threads than there are processors outrank it, it runs: from the very moment on at which it
/// became ready, without any delay. What counts is its class after the last entry of the moment.
pub fn class_one_responds()
    ensures { (scenario : Scenario) (order : Order) (h : List Entry) (e : Entry) (x : ℕ)
        → IsScenario scenario
        → IsLegal scenario order (h ++ e ∷ [])
        → PassesTime scenario h e
        → class_now (state_after scenario (h ++ e ∷ [])) (h ++ e ∷ []) x ≡ 1
        → IsResponsive (state_after scenario (h ++ e ∷ [])) (h ++ e ∷ []) x }
{}
