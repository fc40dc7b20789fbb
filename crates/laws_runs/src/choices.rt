//! What the entries of a legal history pick.
ghost use Rattle.std.specs.Prelude.{List};
ghost use Rattle.aps_model.specs.declared.entry.Entry.{Entry};
ghost use Rattle.aps_model.specs.declared.entry.Order.{Order};
ghost use Rattle.aps_model.specs.Scenario.{Scenario};
ghost use Rattle.aps_model.specs.Valid.{IsScenario};
ghost use Rattle.aps_model.specs.Legal.{IsLegal};
ghost use Rattle.laws_runs.specs.Choices.{EachPickIsGreatest};

/// Each entry that makes a pick picks the greatest candidate, by the usage with its own bill, and nobody exactly where
/// there is no candidate; it names the lowest partition with a budget and no candidate.
pub fn picks_are_greatest()
    ensures { (scenario : Scenario) (order : Order) (h : List Entry)
        → IsScenario scenario
        → IsLegal scenario order h
        → EachPickIsGreatest scenario h }
{}
