//! By how much a partition exceeds its budget or falls short of it, in any ticks without a change.
ghost use Rattle.std.specs.Prelude.{List, ◌/◌};
ghost use Rattle.aps_model.specs.declared.entry.Entry.{Entry};
ghost use Rattle.aps_model.specs.declared.entry.Order.{Order};
ghost use Rattle.aps_model.specs.Scenario.{Scenario};
ghost use Rattle.aps_model.specs.Valid.{IsScenario};
ghost use Rattle.aps_model.specs.Legal.{IsLegal};
ghost use Rattle.laws_bounds.specs.Excess.{KeepsExcess};

/// In finished ticks without a change, at most as many as a window has, a partition goes beyond its budget only by free
/// time, by critical time and by less than one tick for each processor; it falls short of it only by what the others so
/// took and by idle time. It need not have had work, nor need anybody else.
pub fn excess()
    ensures { (scenario : Scenario) (order : Order) (h : List Entry)
        → IsScenario scenario
        → IsLegal scenario order h
        → KeepsExcess scenario h }
{}
