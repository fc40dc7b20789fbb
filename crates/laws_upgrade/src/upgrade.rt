//! The upgraded scenario has the same runs.
ghost use Rattle.std.specs.Prelude.{◌≡◌};
ghost use Rattle.aps_model.specs.Limits.{percent, thousandths};
ghost use Rattle.aps_model.specs.Scenario.{Scenario};
ghost use Rattle.aps_model.specs.Upgrade.{upgraded};
ghost use Rattle.aps_model.specs.Valid.{IsScenario};
ghost use Rattle.laws_upgrade.specs.Upgraded.{HasSameRuns, LeavesTimesTen};

/// In each order a history is legal for the upgraded scenario exactly where it is legal for the scenario, and with each
/// limit it has the same end.
pub fn upgraded_runs_are_the_same()
    ensures { (scenario : Scenario) → IsScenario scenario → HasSameRuns scenario (upgraded scenario) }
{}

/// Where budgets are in parts per hundred, the replies of the upgraded scenario are the same but for budgets, maxima, what
/// a refusal tells of them, and the parts of a shape, which are ten times as many; and so are the rows and the shape. All
/// else that a run leaves is equal. Where they are in parts per thousand already, the upgraded scenario is the same one.
pub fn upgraded_states_are_times_ten()
    ensures ten { (scenario : Scenario) → scenario.shape.parts ≡ percent → LeavesTimesTen scenario (upgraded scenario) }
    ensures same { (scenario : Scenario) → scenario.shape.parts ≡ thousandths → upgraded scenario ≡ scenario }
{}

/// Upgrading twice gives the scenario that upgrading once gives.
pub fn upgraded_once_is_enough()
    ensures { (scenario : Scenario) → upgraded (upgraded scenario) ≡ upgraded scenario }
{}
