//! How large the numbers of a legal history get, so that what is computed of them fits its type.
ghost use Rattle.std.specs.Prelude.{◌≡◌, ℕ, List, [], ◌∷◌, ◌++◌, None, ◌/◌};
ghost use Rattle.aps_model.specs.declared.entry.Entry.{Entry};
ghost use Rattle.aps_model.specs.declared.entry.Order.{Order};
ghost use Rattle.aps_model.specs.Scenario.{Scenario};
ghost use Rattle.aps_model.specs.Valid.{IsScenario};
ghost use Rattle.aps_model.specs.After.{after, over, state_after};
ghost use Rattle.aps_model.specs.Legal.{IsLegal};
ghost use Rattle.aps_model.specs.Due.{HasTurn, due, last_end};
ghost use Rattle.laws_runs.specs.Numbers.{AreMomentsSmall, FitsWindow, IsUsageSmall};

/// Each entry is of a processor that there is and at most a tick long; no entry, flag or last moment is later than
/// 10,000,000,000,000, and no due later than that and a tick.
pub fn moments_are_small()
    ensures { (scenario : Scenario) (order : Order) (h : List Entry)
        → IsScenario scenario
        → IsLegal scenario order h
        → AreMomentsSmall (state_after scenario h) h }
{}

/// In any ticks all partitions together use at most the time of all processors: at most 160,000,000 in one tick,
/// 64,000,000,000 in 400 ticks, and 160,000,000,000,000 in all.
pub fn usage_is_small()
    ensures { (scenario : Scenario) (order : Order) (h : List Entry) (a b : ℕ)
        → IsScenario scenario
        → IsLegal scenario order h
        → IsUsageSmall scenario.shape h a b }
{}

/// The same with the entry of the next step in hand, which has its processor and its moments, whatever else stands in
/// it.
pub fn usage_in_hand_is_small()
    ensures { (scenario : Scenario) (order : Order) (h : List Entry) (e : Entry) (a b : ℕ)
        → IsScenario scenario
        → IsLegal scenario order h
        → over (after scenario h) h ≡ None
        → HasTurn order (state_after scenario h) h e.cpu
        → e.from ≡ last_end h e.cpu
        → e.to ≡ due (state_after scenario h) h e.cpu
        → IsUsageSmall scenario.shape (h ++ e ∷ []) a b }
{}

/// In each window a partition uses at most the whole, and at most that of it is critical time.
pub fn windows_are_whole()
    ensures { (scenario : Scenario) (order : Order) (h : List Entry)
        → IsScenario scenario
        → IsLegal scenario order h
        → FitsWindow (state_after scenario h) h }
{}
