//! How long an operation takes.
ghost use Rattle.std.specs.Prelude.{ℕ, List, ◌++◌, ◌/◌};
ghost use Rattle.aps_model.specs.declared.entry.Entry.{Entry};
ghost use Rattle.aps_model.specs.declared.entry.Order.{Order};
ghost use Rattle.aps_model.specs.After.{state_after};
ghost use Rattle.aps_model.specs.Scenario.{Scenario};
ghost use Rattle.aps_model.specs.Valid.{IsScenario};
ghost use Rattle.aps_model.specs.Legal.{IsLegal};
ghost use Rattle.laws_load.specs.Operation.{IsDoneInTime, IsInOperation, RunsOn, StaysAhead};

/// A thread that runs whenever time passes loses none: an operation of which so many ns are left ends so many ns later,
/// by an entry that ran the thread until that very moment.
pub fn done_in_time()
    ensures { (scenario : Scenario) (order : Order) (h more : List Entry) (x place end : ℕ)
        → IsScenario scenario
        → IsLegal scenario order (h ++ more)
        → IsInOperation (state_after scenario h) h x place end
        → RunsOn scenario h more x
        → IsDoneInTime scenario h more x place end }
{}

/// So does an operation of a thread that, whenever time passes, is of class 1 and is outranked by fewer threads than
/// there are processors.
pub fn class_one_is_done_in_time()
    ensures { (scenario : Scenario) (order : Order) (h more : List Entry) (x place end : ℕ)
        → IsScenario scenario
        → IsLegal scenario order (h ++ more)
        → IsInOperation (state_after scenario h) h x place end
        → StaysAhead scenario h more x
        → IsDoneInTime scenario h more x place end }
{}
