//! Prefixes of legal histories, and the one run in fixed order.
ghost use Rattle.std.specs.Prelude.{◌≡◌, ℕ, ◌<◌, ◌≤◌, List, [], ◌∷◌, ◌++◌, length, None, IsSome};
ghost use Rattle.aps_model.specs.declared.entry.Entry.{Entry};
ghost use Rattle.aps_model.specs.declared.entry.Order.{Order};
ghost use Rattle.aps_model.specs.declared.entry.Order.TheVariants.{Fixed};
ghost use Rattle.aps_model.specs.Scenario.{Scenario};
ghost use Rattle.aps_model.specs.SchedulerState.{SchedulerState};
ghost use Rattle.aps_model.specs.Valid.{IsScenario};
ghost use Rattle.aps_model.specs.After.{end_of};
ghost use Rattle.aps_model.specs.Due.{HasTurn};
ghost use Rattle.aps_model.specs.Legal.{IsLegal, fixed_run};
ghost use Rattle.laws_runs.specs.Runs.{IsTurnOfOne, GoesOn, IsOneMore, EndsNoSooner, IsEndedRun, Extends, finished, with_fixed_step};

/// In fixed order one processor has the turn: the lowest of those that are due least.
pub fn one_has_the_turn()
    ensures { (s : SchedulerState) (h : List Entry) → 1 ≤ s.shape.cpus → IsTurnOfOne s h }
{}

/// Who has the turn in fixed order has it in any order.
pub fn fixed_turn_is_any_turn()
    ensures { (order : Order) (s : SchedulerState) (h : List Entry) (c : ℕ) → HasTurn Fixed s h c → HasTurn order s h c }
{}

/// A history that is legal in fixed order is legal in any order.
pub fn fixed_is_legal_in_any_order()
    ensures { (scenario : Scenario) (order : Order) (h : List Entry) → IsLegal scenario Fixed h → IsLegal scenario order h }
{}

/// One entry more makes a legal history exactly where the history before was legal, wasn't over, and the entry is the
/// step of a processor that had the turn.
pub fn legal_histories_go_on()
    ensures more { (scenario : Scenario) (order : Order) (h : List Entry) (e : Entry)
        → IsLegal scenario order (h ++ e ∷ [])
        → IsOneMore scenario order h e }
    ensures back { (scenario : Scenario) (order : Order) (h : List Entry) (e : Entry)
        → IsLegal scenario order h
        → GoesOn scenario order h e
        → IsLegal scenario order (h ++ e ∷ []) }
{}

/// Each prefix of a legal history is legal and, unless it is the whole, goes on by the next entry, so that it isn't
/// over.
pub fn prefixes_are_legal()
    ensures legal { (scenario : Scenario) (order : Order) (h later : List Entry)
        → IsLegal scenario order (h ++ later)
        → IsLegal scenario order h }
    ensures goes_on { (scenario : Scenario) (order : Order) (h later : List Entry) (e : Entry)
        → IsLegal scenario order (h ++ e ∷ later)
        → GoesOn scenario order h e }
{}

/// The run in fixed order with a limit is legal in fixed order and has ended with that limit, and none of its shorter
/// prefixes has.
pub fn fixed_run_ends()
    ensures { (scenario : Scenario) (limit : ℕ) → IsScenario scenario → IsEndedRun scenario Fixed limit (fixed_run scenario limit) }
{}

/// It is the only one.
pub fn fixed_run_is_one()
    ensures { (scenario : Scenario) (limit : ℕ) (h : List Entry)
        → IsScenario scenario
        → IsEndedRun scenario Fixed limit h
        → h ≡ fixed_run scenario limit }
{}

/// A legal history none of whose shorter prefixes has ended goes on by steps in fixed order to one that has ended with
/// the limit, and no sooner. In fixed order that is the run.
pub fn finished_ends()
    ensures run { (scenario : Scenario) (order : Order) (limit : ℕ) (h : List Entry)
        → IsScenario scenario
        → IsLegal scenario order h
        → EndsNoSooner scenario limit h
        → IsEndedRun scenario order limit (finished scenario limit h) }
    ensures extends { (scenario : Scenario) (limit : ℕ) (h : List Entry) → Extends h (finished scenario limit h) }
    ensures fixed { (scenario : Scenario) (limit : ℕ) (h : List Entry)
        → IsScenario scenario
        → IsLegal scenario Fixed h
        → EndsNoSooner scenario limit h
        → finished scenario limit h ≡ fixed_run scenario limit }
{}

/// Finishing leaves a history that has ended as it is, and one that hasn't may first go on by one step in fixed order.
pub fn finished_by_steps()
    ensures stops { (scenario : Scenario) (limit : ℕ) (h : List Entry) → IsSome (end_of scenario limit h) → finished scenario limit h ≡ h }
    ensures steps { (scenario : Scenario) (order : Order) (limit : ℕ) (h : List Entry)
        → IsScenario scenario
        → IsLegal scenario order h
        → length h < limit
        → end_of scenario limit h ≡ None
        → finished scenario limit h ≡ finished scenario limit (with_fixed_step scenario h) }
{}
