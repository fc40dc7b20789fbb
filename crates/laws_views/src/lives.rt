//! What a life tells is what the journal says.
ghost use Rattle.std.specs.Prelude.{◌≡◌, ℕ, ◌<◌, ◌++◌, List, ◌∷◌, Bool, Some};
ghost use Rattle.aps_model.specs.declared.entry.Entry.{Entry};
ghost use Rattle.aps_model.specs.declared.entry.Order.{Order};
ghost use Rattle.aps_model.specs.Due.{last_end};
ghost use Rattle.aps_model.specs.Legal.{IsLegal};
ghost use Rattle.aps_model.specs.Scenario.{Scenario};
ghost use Rattle.aps_model.specs.Valid.{IsScenario};
ghost use Rattle.laws_runs.specs.Moments.{moment};
ghost use Rattle.view_lives.specs.declared.doing.Doing.TheVariants.{Running};
ghost use Rattle.view_lives.specs.declared.life.Segment.{Segment};
ghost use Rattle.view_lives.specs.Life.{life_of};
ghost use Rattle.view_lives.specs.Whole.{doing_at};
ghost use Rattle.laws_views.specs.Billed.{IsBilledAt, LiesIn, LiesInOne, RunsAsBilled};

/// Each moment before the end of the last entry lies in exactly one segment of a thread's life, and this one tells what the thread
/// does then, whether it is ready, runs, waits, sleeps or is gone.
pub fn moments_lie_in_one()
    ensures { (scenario : Scenario) (order : Order) (h : List Entry) (x m : ℕ) → IsScenario scenario → IsLegal scenario order h
        → m < moment h → LiesInOne (doing_at scenario h x) (life_of scenario h x) m }
{}

/// An entry's thread runs at each moment from the entry's beginning to before its end, on the entry's processor, on the bill of the
/// partition that the entry bills, and with its mark.
pub fn entries_are_lived()
    ensures { (scenario : Scenario) (order : Order) (h before later : List Entry) (e : Entry) (x : ℕ)
        → IsScenario scenario
        → IsLegal scenario order h
        → h ≡ before ++ e ∷ later → e.ran ≡ Some x → RunsAsBilled scenario h e x }
{}

/// At each moment of a segment that runs, before its processor's last step, an entry of this processor runs the thread, and bills
/// the partition that the segment names with the segment's mark. (What ran since that step is in no entry yet.)
pub fn segments_are_billed()
    ensures { (scenario : Scenario) (order : Order) (h : List Entry) (x m c p : ℕ) (critical : Bool)
        (front back : List Segment) (s : Segment)
        → IsScenario scenario → IsLegal scenario order h → life_of scenario h x ≡ front ++ s ∷ back → s.doing ≡ Running c p critical
        → LiesIn m s → m < last_end h c → IsBilledAt h x m c p critical }
{}
