//! What the sleepers of a timer have to do with the scheduler state.
ghost use Rattle.std.specs.Prelude.{◌≡◌, ℕ};
ghost use Rattle.aps_model.specs.SchedulerState.{SchedulerState};
ghost use Rattle.aps_model.specs.TickWork.{waking};
ghost use Rattle.aps_timer.specs.Sleepers.{all_due};
ghost use Rattle.aps_timer.specs.Waking.{asleep_of};

/// Where a timer has the sleeping threads of the scheduler state, those that are due are those that wake at a tick, in
/// the order in which they do.
pub fn those_due_are_those_that_wake()
    ensures { (s : SchedulerState) (now : ℕ) → all_due (asleep_of s.threads) now ≡ waking s now }
{}
