//! When a pick is of class 1.
ghost use Rattle.std.specs.Prelude.{List, [], ◌∷◌, ◌++◌, ◌⊎◌, ◌/◌};
ghost use Rattle.aps_model.specs.declared.entry.Entry.{Entry};
ghost use Rattle.aps_model.specs.declared.entry.Order.{Order};
ghost use Rattle.aps_model.specs.After.{after, state_after};
ghost use Rattle.aps_model.specs.Scenario.{Scenario};
ghost use Rattle.aps_model.specs.Valid.{IsScenario};
ghost use Rattle.aps_model.specs.Legal.{IsLegal};
ghost use Rattle.laws_load.specs.Work.{ServesClassOne};
ghost use Rattle.laws_runs.specs.Choices.{MadeNoPick};

/// A pick is of class 1 exactly where some ready thread is, and so it is wherever a partition that is in budget has work,
/// limit or no limit; unless the entry makes no pick, since it stands at the horizon or ended the run.
pub fn class_one_is_served()
    ensures { (scenario : Scenario) (order : Order) (h : List Entry) (e : Entry)
        → IsScenario scenario
        → IsLegal scenario order (h ++ e ∷ [])
        → MadeNoPick (state_after scenario h) e (after scenario (h ++ e ∷ [])).reboot ⊎ ServesClassOne scenario h e }
{}
