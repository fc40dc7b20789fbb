//! Windows that begin at any moment, also inside a tick.
ghost use Rattle.std.specs.Prelude.{◌≡◌, ℕ, ◌*◌, ◌≤◌, List, ◌/◌};
ghost use Rattle.aps_model.specs.declared.entry.Entry.{Entry};
ghost use Rattle.aps_model.specs.declared.entry.Order.{Order};
ghost use Rattle.aps_model.specs.Scenario.{Scenario};
ghost use Rattle.aps_model.specs.Valid.{IsScenario};
ghost use Rattle.aps_model.specs.Legal.{IsLegal};
ghost use Rattle.laws_load.specs.AnyMoment.{KeepsAnyMoment, leap};

/// For a window that begins inside a tick the lines of the excess hold with one leap more. That stands once in the lower
/// line, however many other partitions there are, and not at all in the upper line of one without a budget.
pub fn any_moment()
    ensures { (scenario : Scenario) (order : Order) (h : List Entry)
        → IsScenario scenario
        → IsLegal scenario order h
        → KeepsAnyMoment scenario h }
{}

/// A leap is at most a quarter of a tick for each processor. There is none where the window begins with a tick, nor on
/// one processor.
pub fn leap_is_small()
    ensures quarter { (cpus tick late : ℕ) → late ≤ tick → 4 * leap cpus tick late ≤ cpus * tick }
    ensures at_boundary { (cpus tick : ℕ) → leap cpus tick 0 ≡ 0 }
    ensures alone { (tick late : ℕ) → leap 1 tick late ≡ 0 }
{}
