//! Laws of calls. Each function states one, and does nothing.
ghost use Rattle.std.specs.Prelude.{ℕ, List};
ghost use Rattle.aps_model.specs.declared.entry.Entry.{Entry};
ghost use Rattle.aps_model.specs.declared.entry.Order.{Order};
ghost use Rattle.aps_model.specs.After.{state_after};
ghost use Rattle.aps_model.specs.Legal.{IsLegal};
ghost use Rattle.aps_model.specs.Scenario.{Scenario};
ghost use Rattle.aps_model.specs.Valid.{IsScenario};
ghost use Rattle.view_latency.specs.Held.{IsCountedOnce, IsHeldByState};

/// After a legal history a thread waits for a server's reply exactly where it is the client that the server holds.
pub fn servers_hold_who_waits()
    ensures { (scenario : Scenario) (order : Order) (h : List Entry)
        → IsScenario scenario
        → IsLegal scenario order h
        → IsHeldByState (state_after scenario h) }
{}

/// The time of an entry after a legal history counts as served for the client that its thread holds, and for no other thread.
pub fn time_counts_for_one()
    ensures { (scenario : Scenario) (order : Order) (h : List Entry) (e : Entry)
        → IsScenario scenario
        → IsLegal scenario order h
        → IsCountedOnce scenario (state_after scenario h) e }
{}
