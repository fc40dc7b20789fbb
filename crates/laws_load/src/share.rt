//! What a partition gets that has work, whatever the others do.
ghost use Rattle.std.specs.Prelude.{List, ◌/◌};
ghost use Rattle.aps_model.specs.declared.entry.Entry.{Entry};
ghost use Rattle.aps_model.specs.declared.entry.Order.{Order};
ghost use Rattle.aps_model.specs.Scenario.{Scenario};
ghost use Rattle.aps_model.specs.Valid.{IsScenario};
ghost use Rattle.aps_model.specs.Legal.{IsLegal};
ghost use Rattle.laws_load.specs.OwnShare.{KeepsOwnShare, KeepsSupply};

/// Take a partition that has work at each pick of a window at which it is in budget. Either some pick finds it out of
/// budget: then in the window that ends with the tick of each such pick it has its whole share, with nothing missing. Or
/// this window is served, and in it the partition falls short of its budget by at most what the others may take beyond
/// theirs.
///
/// So, but for that, it never stays a whole window long without having had its share: it has it in the window at one of
/// these ticks, and in this window taken with the ticks before it, one less than a window has. It need not have it in
/// this very window: what it is denied while it is out of budget isn't given back.
pub fn own_share()
    ensures { (scenario : Scenario) (order : Order) (h : List Entry)
        → IsScenario scenario
        → IsLegal scenario order h
        → KeepsOwnShare scenario h }
{}

/// A partition that is in budget and has work at each pick of some ticks, at most as many as a window has, gets the time
/// that is left in them when the others have had their budgets, their critical time and one tick for each processor. So
/// it isn't long without any time.
pub fn supply()
    ensures { (scenario : Scenario) (order : Order) (h : List Entry)
        → IsScenario scenario
        → IsLegal scenario order h
        → KeepsSupply scenario h }
{}
