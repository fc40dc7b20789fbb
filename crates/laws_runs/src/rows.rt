//! The partition rows and the parameters of a legal history.
ghost use Rattle.std.specs.Prelude.{◌≡◌, ◌≢◌, ℕ, ◌*◌, ◌<◌, ◌≤◌, false, length, All, List, [], ◌∷◌, ◌++◌, ◌/◌};
ghost use Rattle.aps_model.specs.declared.entry.Entry.{Entry};
ghost use Rattle.aps_model.specs.declared.entry.Order.{Order};
ghost use Rattle.aps_model.specs.Scenario.{Scenario};
ghost use Rattle.aps_model.specs.Valid.{IsScenario};
ghost use Rattle.aps_model.specs.After.{state_after};
ghost use Rattle.aps_model.specs.Legal.{IsLegal};
ghost use Rattle.laws_runs.specs.Changes.{AreInTicks, HasRoomForChanges, OnlyGrow};
ghost use Rattle.laws_runs.specs.Grown.{IsGrown};
ghost use Rattle.aps_model.specs.Loaded.{has_change, rows_of_tick, state_of_tick};
ghost use Rattle.aps_model.specs.Partition.{IsRow};
ghost use Rattle.laws_runs.specs.Held.{HasRowsOfTick, HoldsRows};
ghost use Rattle.laws_runs.specs.Moments.{moment};
ghost use Rattle.laws_runs.specs.Rows.{AreInOrder, AreRowsKept};

/// Changes only grow, by changes at the entry's tick, and where there is none more rows and shape are the same.
pub fn change_or_same()
    ensures { (scenario : Scenario) (order : Order) (h : List Entry) (e : Entry)
        → IsScenario scenario
        → IsLegal scenario order (h ++ e ∷ [])
        → IsGrown (e.to / scenario.shape.tick) (state_after scenario h) (state_after scenario (h ++ e ∷ [])) }
{}

/// Rows and shape stay in order: 1 to 32 rows with distinct names, each parent before its children, row 0 `System` and
/// its own parent; budgets sum to the parts and each is at most its maximum; the sizes are the scenario's, and the
/// window stays within 8 to 400 ticks.
pub fn rows_sound()
    ensures in_order { (scenario : Scenario) (order : Order) (h : List Entry)
        → IsScenario scenario
        → IsLegal scenario order h
        → AreInOrder scenario (state_after scenario h) }
    ensures in_range { (scenario : Scenario) (order : Order) (h : List Entry)
        → IsScenario scenario
        → IsLegal scenario order h
        → All IsRow (state_after scenario h).rows }
{}

/// Rows never go, and none changes its name or its parent.
pub fn rows_stay()
    ensures { (scenario : Scenario) (order : Order) (h later : List Entry)
        → IsScenario scenario
        → IsLegal scenario order (h ++ later)
        → AreRowsKept (state_after scenario h).rows (state_after scenario (h ++ later)).rows }
{}

/// Where no change stands at ticks a to b-1, each entry that ends in them leaves the rows and the shape that the first
/// entry at or after tick a leaves, and so does the whole history if it ends there.
pub fn rows_hold()
    ensures entries { (scenario : Scenario) (order : Order) (h : List Entry) (a b : ℕ)
        → IsScenario scenario
        → IsLegal scenario order h
        → has_change (state_after scenario h).changes a b ≡ false
        → HoldsRows scenario h a b }
    ensures last { (scenario : Scenario) (order : Order) (h : List Entry) (a b : ℕ)
        → IsScenario scenario
        → IsLegal scenario order h
        → h ≢ []
        → a * scenario.shape.tick ≤ moment h
        → moment h < b * scenario.shape.tick
        → has_change (state_after scenario h).changes a b ≡ false
        → HasRowsOfTick scenario h h a }
{}

/// The rows and the shape of a tick are in order, and its rows stay in the rows that the history leaves.
pub fn tick_rows_sound()
    ensures in_order { (scenario : Scenario) (order : Order) (h : List Entry) (a : ℕ)
        → IsScenario scenario
        → IsLegal scenario order h
        → AreInOrder scenario (state_of_tick scenario h a) }
    ensures stay { (scenario : Scenario) (order : Order) (h : List Entry) (a : ℕ)
        → IsScenario scenario
        → IsLegal scenario order h
        → AreRowsKept (rows_of_tick scenario h a) (state_after scenario h).rows }
{}

/// Replies and changes only grow, at their ends.
pub fn lists_grow()
    ensures { (scenario : Scenario) (order : Order) (h later : List Entry)
        → IsScenario scenario
        → IsLegal scenario order (h ++ later)
        → OnlyGrow (state_after scenario h) (state_after scenario (h ++ later)) }
{}

/// The ticks of changes never fall, and none is later than the tick of the last moment.
pub fn changes_in_ticks()
    ensures { (scenario : Scenario) (order : Order) (h : List Entry)
        → IsScenario scenario
        → IsLegal scenario order h
        → AreInTicks scenario.shape.tick h (state_after scenario h).changes }
{}

/// Changes and rows with a critical budget together are at most twice the replies and the rows with one at the start,
/// so there are at most 2,079 changes.
pub fn changes_bounded()
    ensures room { (scenario : Scenario) (order : Order) (h : List Entry)
        → IsScenario scenario
        → IsLegal scenario order h
        → HasRoomForChanges scenario (state_after scenario h) }
    ensures few { (scenario : Scenario) (order : Order) (h : List Entry)
        → IsScenario scenario
        → IsLegal scenario order h
        → length (state_after scenario h).changes ≤ 2079 }
{}
