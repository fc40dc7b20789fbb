//! What the loaded windows of a legal history keep, and with them the numbers of its audit.
ghost use Rattle.std.specs.Prelude.{ℕ, ◌≤◌, ◌*◌, ◌/◌, List, IfSome};
ghost use Rattle.aps_model.specs.declared.entry.Entry.{Entry};
ghost use Rattle.aps_model.specs.declared.entry.Order.{Order};
ghost use Rattle.aps_model.specs.declared.audit.Worst.{Worst};
ghost use Rattle.aps_model.specs.Scenario.{Scenario};
ghost use Rattle.aps_model.specs.Valid.{IsScenario};
ghost use Rattle.aps_model.specs.Legal.{IsLegal};
ghost use Rattle.aps_model.specs.History.{Rooms};
ghost use Rattle.aps_model.specs.Recorded.{recorded};
ghost use Rattle.aps_model.specs.Audit.{audit_of, over_from, short_from, critical_over_from};
ghost use Rattle.aps_model.specs.History.{History};
ghost use Rattle.laws_bounds.specs.Loaded.{IsLoaded, IsSettled, IsUncritical, KeepsLast};
ghost use Rattle.laws_bounds.specs.Worst.{IsAudited, TellsWorst};

/// Each amount of an audit (ns) is the greatest of its kind over all partitions in all loaded windows. Its window is
/// the first in which a partition attains it, and of these partitions it names the lowest. There is none exactly where
/// no partition stands in a loaded window. This holds of every history, whether or not it came from a run.
pub fn worst_is_greatest()
    ensures over { (h : History) → TellsWorst (over_from h) (IsAudited h) (audit_of h).worst_over }
    ensures short { (h : History) → TellsWorst (short_from h) (IsAudited h) (audit_of h).worst_short }
    ensures critical { (h : History) → TellsWorst (critical_over_from h) (IsAudited h) (audit_of h).critical_worst }
{}

/// Where no change stands at the first unfinished tick or later, each loaded window keeps both bounds by the rows and
/// the window that stand last.
pub fn loaded_windows_keep_bounds()
    ensures { (scenario : Scenario) (order : Order) (h : List Entry) (limit : ℕ) (rooms : Rooms)
        → IsScenario scenario
        → IsLegal scenario order h
        → IsSettled (recorded scenario limit rooms h)
        → (a : ℕ)
        → IsLoaded (recorded scenario limit rooms h) a
        → KeepsLast (recorded scenario limit rooms h) a }
{}

/// The greatest excess over a critical budget is then at most one tick for each processor.
pub fn critical_worst_is_small()
    ensures { (scenario : Scenario) (order : Order) (h : List Entry) (limit : ℕ) (rooms : Rooms)
        → IsScenario scenario
        → IsLegal scenario order h
        → IsSettled (recorded scenario limit rooms h)
        → IfSome (audit_of (recorded scenario limit rooms h)).critical_worst
        (λ (w : Worst). w.amount ≤ (recorded scenario limit rooms h).shape.cpus * (recorded scenario limit rooms h).shape.tick) }
{}

/// So is the greatest excess over a budget, where no critical time was spent in a loaded window.
pub fn worst_over_is_small()
    ensures { (scenario : Scenario) (order : Order) (h : List Entry) (limit : ℕ) (rooms : Rooms)
        → IsScenario scenario
        → IsLegal scenario order h
        → IsSettled (recorded scenario limit rooms h)
        → IsUncritical (recorded scenario limit rooms h)
        → IfSome (audit_of (recorded scenario limit rooms h)).worst_over
        (λ (w : Worst). w.amount ≤ (recorded scenario limit rooms h).shape.cpus * (recorded scenario limit rooms h).shape.tick) }
{}
