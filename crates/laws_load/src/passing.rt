//! What holds whenever time passes.
ghost use Rattle.std.specs.Prelude.{List, [], ◌∷◌, ◌++◌, ◌/◌};
ghost use Rattle.aps_model.specs.declared.entry.Entry.{Entry};
ghost use Rattle.aps_model.specs.declared.entry.Order.{Order};
ghost use Rattle.aps_model.specs.After.{state_after};
ghost use Rattle.aps_model.specs.Scenario.{Scenario};
ghost use Rattle.aps_model.specs.Valid.{IsScenario};
ghost use Rattle.aps_model.specs.Legal.{IsLegal};
ghost use Rattle.laws_load.specs.Passing.{NeverPassesOver, PassesNobodyOver, PassesTime};

/// Time never passes with an idle processor beside a candidate, nor with a thread running while one is ready that may
/// run and has a higher class, or the same class and a higher priority. (Of two threads of class 0 the priority counts
/// only where free time goes by priority.)
pub fn nobody_passed_over()
    ensures { (scenario : Scenario) (order : Order) (h : List Entry) (e : Entry)
        → IsScenario scenario
        → IsLegal scenario order (h ++ e ∷ [])
        → PassesTime scenario h e
        → PassesNobodyOver (state_after scenario (h ++ e ∷ [])) (h ++ e ∷ []) }
{}

/// So it is after each entry of a history.
pub fn never_passed_over()
    ensures { (scenario : Scenario) (order : Order) (h : List Entry)
        → IsScenario scenario
        → IsLegal scenario order h
        → NeverPassesOver scenario h }
{}
