//! What is true of every live history: laws over the definitions alone.
ghost use Rattle.std.specs.Prelude.{List};
ghost use Rattle.aps_model.specs.Scenario.{Scenario};
ghost use Rattle.aps_model.specs.Valid.{IsScenario};
ghost use Rattle.aps_live.specs.LiveBound.{KeepsLiveBound};
ghost use Rattle.aps_live.specs.LiveHistory.{IsLive, Taken, entries_of};

/// In a window at whose picks nobody was starved a partition uses at most its budget, its critical time, and the longest
/// interval of each processor.
pub fn live_bound()
    ensures { (scenario : Scenario) (steps : List Taken)
        → IsScenario scenario
        → IsLive scenario steps
        → KeepsLiveBound scenario (entries_of steps) }
{}
