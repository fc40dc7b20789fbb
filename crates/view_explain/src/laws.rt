//! Laws of what is told. Each function states one, and does nothing.
ghost use Rattle.std.specs.Prelude.{◌≡◌, ◌++◌, List, [], ◌∷◌, is_some};
ghost use Rattle.aps_model.specs.declared.entry.Entry.{Entry};
ghost use Rattle.aps_model.specs.declared.entry.Order.{Order};
ghost use Rattle.aps_model.specs.declared.merit.Merit.{Merit};
ghost use Rattle.aps_model.specs.declared.shape.Free.{Free};
ghost use Rattle.aps_model.specs.After.{state_after};
ghost use Rattle.aps_model.specs.Legal.{IsLegal};
ghost use Rattle.aps_model.specs.Merit.{is_greater};
ghost use Rattle.aps_model.specs.Scenario.{Scenario};
ghost use Rattle.aps_model.specs.Valid.{IsScenario};
ghost use Rattle.view_explain.specs.Ahead.{ahead};
ghost use Rattle.view_explain.specs.Ties.{after_ran, ties_of};

/// A test is named exactly where the merit is greater.
pub fn ahead_where_greater()
    ensures { (free : Free) (a b : Merit) → is_some (ahead free a b) ≡ is_greater free a b }
{}

/// What ties threads after one more entry follows from what that entry says, with what the thread was about before.
pub fn ties_go_on()
    ensures { (scenario : Scenario) (order : Order) (h : List Entry) (e : Entry)
        → IsScenario scenario
        → IsLegal scenario order (h ++ e ∷ [])
        → ties_of (state_after scenario (h ++ e ∷ []))
        ≡ after_ran scenario (state_after scenario h) (ties_of (state_after scenario h)) e.ran e.done }
{}
