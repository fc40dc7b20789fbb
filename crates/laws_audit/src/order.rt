//! Legal histories pass the audit's test of order.
ghost use Rattle.std.specs.Prelude.{List};
ghost use Rattle.aps_model.specs.declared.entry.Entry.{Entry};
ghost use Rattle.aps_model.specs.declared.entry.Order.{Order};
ghost use Rattle.aps_model.specs.Legal.{IsLegal};
ghost use Rattle.aps_model.specs.Scenario.{Scenario};
ghost use Rattle.aps_model.specs.Valid.{IsScenario};
ghost use Rattle.aps_bound.specs.Order.{IsInOrder};

/// No entry of a legal history ends before an earlier one, and each ends by the first boundary after its beginning. So the
/// audit of a run slides from each window to the next, and never recounts the entries.
pub fn legal_histories_are_in_order()
    ensures { (scenario : Scenario) (order : Order) (h : List Entry)
        → IsScenario scenario
        → IsLegal scenario order h
        → IsInOrder scenario.shape.tick h }
{}
