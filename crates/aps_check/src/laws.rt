//! Laws of verdicts. Each function states one, and does nothing.
ghost use Rattle.std.specs.Prelude.{◌≡◌, ℕ, List, Some};
ghost use Rattle.aps_model.specs.declared.entry.End.{End};
ghost use Rattle.aps_model.specs.declared.entry.Entry.{Entry};
ghost use Rattle.aps_model.specs.Legal.{IsLegal};
ghost use Rattle.laws_runs.specs.Runs.{EndsNoSooner};
ghost use Rattle.aps_core.specs.Run.{Setup};
ghost use Rattle.aps_check.specs.declared.verdict.Verdict.{Verdict};
ghost use Rattle.aps_check.specs.declared.verdict.Verdict.TheVariants.{Legal};
ghost use Rattle.aps_check.specs.Verdict.{IsVerdict, end_with};

/// A journal has one verdict at most.
pub fn one_verdict()
    ensures { (setup : Setup) (journal : List Entry) (v w : Verdict) → IsVerdict setup journal v → IsVerdict setup journal w → v ≡ w }
{}

/// The history of each run that has ended, in fixed or free order, is legal in its order and with its limit, with the
/// end of the run: no verdict says otherwise.
pub fn ended_runs_are_legal()
    ensures verdict { (setup : Setup) (h : List Entry) (end : End) → IsLegal setup.scenario setup.order h
        → EndsNoSooner setup.scenario setup.limit h → end_with setup h ≡ Some end → IsVerdict setup h (Legal (Some end)) }
    ensures only { (setup : Setup) (h : List Entry) (end : End) (v : Verdict) → IsLegal setup.scenario setup.order h
        → EndsNoSooner setup.scenario setup.limit h → end_with setup h ≡ Some end → IsVerdict setup h v → v ≡ Legal (Some end) }
{}
