//! Needs are met.
ghost use Rattle.std.specs.Prelude.{◌≡◌, ℕ, ◌+◌, List};
ghost use Rattle.aps_model.specs.declared.demand.Demand.{Demand};
ghost use Rattle.aps_model.specs.declared.entry.Entry.{Entry};
ghost use Rattle.aps_model.specs.declared.entry.Order.{Order};
ghost use Rattle.aps_model.specs.declared.partition.PartitionRow.{PartitionRow};
ghost use Rattle.aps_model.specs.declared.shape.Shape.{Shape};
ghost use Rattle.aps_model.specs.Legal.{IsLegal};
ghost use Rattle.aps_model.specs.Scenario.{Scenario};
ghost use Rattle.aps_model.specs.Valid.{IsScenario};
ghost use Rattle.aps_admit.specs.declared.admission.Admission.TheVariants.{Budgets};
ghost use Rattle.aps_admit.specs.declared.admission.Granted.{Granted};
ghost use Rattle.aps_admit.specs.Admission.{admission};
ghost use Rattle.laws_admit.specs.Admitted.{AreGranted, AreGrantedRows, IsAdmitted, IsAdmittedWindow, IsCalmWindow, MeetsNeeds};

/// Where `admit` grants budgets for the demands, a scenario has this shape's parts, processors, tick and window, and its
/// partitions have the granted budgets, each demand's partition uses at least its need in every finished window of steady
/// ticks that holds no critical time, and in which the scenario's rows and window still stand. The partitions may have any
/// names and any order: `place i` is that of demand i. There are no others but `System`.
pub fn needs_are_met()
    ensures { (shape : Shape) (demands : List Demand) (grants : List Granted) (place : ℕ → ℕ)
        (scenario : Scenario) (order : Order) (h : List Entry) (a : ℕ)
        → admission shape demands ≡ Budgets grants
        → IsScenario scenario → IsAdmitted shape grants place scenario
        → IsLegal scenario order h → IsCalmWindow scenario h a
        → MeetsNeeds shape demands place h a }
{}

/// The same of the rows and the window that stand at the tick, whatever the scenario began with.
pub fn needs_are_met_by_rows()
    ensures { (shape : Shape) (demands : List Demand) (grants : List Granted) (place : ℕ → ℕ)
        (scenario : Scenario) (order : Order) (h : List Entry) (a : ℕ)
        → admission shape demands ≡ Budgets grants
        → IsScenario scenario → IsLegal scenario order h
        → IsAdmittedWindow shape grants place scenario h a
        → MeetsNeeds shape demands place h a }
{}

/// Rows that are `System` and one directly below it for each grant, in their order and under their names, have the granted
/// budgets: the partition of demand i is number i + 1.
pub fn rows_in_order_are_granted()
    ensures { (grants : List Granted) (rows : List PartitionRow) → AreGrantedRows grants rows
        → AreGranted grants (λ i. i + 1) rows }
{}
