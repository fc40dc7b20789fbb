//! Laws of lives. Each function states one, and does nothing.
ghost use Rattle.std.specs.Prelude.{◌≡◌, ℕ, List};
ghost use Rattle.aps_model.specs.declared.entry.Entry.{Entry};
ghost use Rattle.aps_model.specs.declared.entry.Order.{Order};
ghost use Rattle.aps_model.specs.Legal.{IsLegal};
ghost use Rattle.aps_model.specs.Scenario.{Scenario};
ghost use Rattle.aps_model.specs.Valid.{IsScenario};
ghost use Rattle.view_lives.specs.declared.life.Segment.{Segment};
ghost use Rattle.view_lives.specs.Life.{life_of};
ghost use Rattle.view_lives.specs.Whole.{IsLife};

/// The life of a thread in a legal history tiles the time from 0 to the end of the last entry, no two neighbours in it are of
/// the same, and at each moment it tells what the thread does after all entries that have ended by then.
pub fn lives_tell_each_moment()
    ensures { (scenario : Scenario) (order : Order) (h : List Entry) (x : ℕ) → IsScenario scenario → IsLegal scenario order h
        → IsLife scenario h x (life_of scenario h x) }
{}

/// No other segments do.
pub fn one_life()
    ensures { (scenario : Scenario) (h : List Entry) (x : ℕ) (life other : List Segment) → IsLife scenario h x life
        → IsLife scenario h x other → life ≡ other }
{}
