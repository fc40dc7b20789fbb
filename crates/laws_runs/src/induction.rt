//! Induction over the prefixes of a legal history.
ghost use Rattle.std.specs.Prelude.{◌≡◌, List, [], Bool, true, ◌/◌};
ghost use Rattle.aps_model.specs.declared.entry.Entry.{Entry};
ghost use Rattle.aps_model.specs.declared.entry.Order.{Order};
ghost use Rattle.aps_model.specs.Scenario.{Scenario};
ghost use Rattle.aps_model.specs.After.{After, after, at_start};
ghost use Rattle.aps_model.specs.Legal.{IsLegal};
ghost use Rattle.laws_runs.specs.Carry.{IsCarried};

/// What holds at the start and is kept by each step holds of each legal history.
pub fn carried()
    ensures { (scenario : Scenario) (order : Order) (P : List Entry → After → Bool)
        → P [] (at_start scenario) ≡ true
        → IsCarried scenario order (λ h a. P h a ≡ true)
        → (h : List Entry)
        → IsLegal scenario order h
        → P h (after scenario h) ≡ true }
{}
