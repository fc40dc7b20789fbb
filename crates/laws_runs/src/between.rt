//! What holds within a step, for those who write one.
ghost use Rattle.std.specs.Prelude.{◌≡◌, ℕ, List, None, ◌/◌};
ghost use Rattle.aps_model.specs.declared.entry.Entry.{Entry};
ghost use Rattle.aps_model.specs.declared.entry.Order.{Order};
ghost use Rattle.aps_model.specs.Scenario.{Scenario};
ghost use Rattle.aps_model.specs.Valid.{IsScenario};
ghost use Rattle.aps_model.specs.After.{after, over, state_after};
ghost use Rattle.aps_model.specs.Due.{HasTurn};
ghost use Rattle.aps_model.specs.Legal.{IsLegal};
ghost use Rattle.laws_runs.specs.Between.{IsBetween};

/// In the step of the processor that has the turn, after the work of the tick, after the bill, and before the pick:
/// places fit, stamps are distinct, inherited values have their ranges, everybody waits where its state says, and the
/// bill takes no more off an operation than is left of it.
pub fn states_between()
    ensures { (scenario : Scenario) (order : Order) (h : List Entry) (c : ℕ)
        → IsScenario scenario
        → IsLegal scenario order h
        → over (after scenario h) h ≡ None
        → HasTurn order (state_after scenario h) h c
        → IsBetween scenario (state_after scenario h) h c }
{}
