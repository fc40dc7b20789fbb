//! The threads of a legal history.
ghost use Rattle.std.specs.Prelude.{List, length, ◌/◌};
ghost use Rattle.aps_model.specs.declared.entry.Entry.{Entry};
ghost use Rattle.aps_model.specs.declared.entry.Order.{Order};
ghost use Rattle.aps_model.specs.Scenario.{Scenario};
ghost use Rattle.aps_model.specs.Valid.{IsScenario};
ghost use Rattle.aps_model.specs.After.{after, state_after};
ghost use Rattle.aps_model.specs.Legal.{IsLegal};
ghost use Rattle.laws_runs.specs.Untouched.{AgreesOnRunning};
ghost use Rattle.laws_runs.specs.Stamps.{IsStamped};
ghost use Rattle.laws_runs.specs.Stamped.{HasFewStamps};
ghost use Rattle.laws_runs.specs.Counts.{IsCounted, NoneShared};
ghost use Rattle.laws_runs.specs.ThreadFits.{Each, IsThreadFit, IsThreadTimed, SleepsOn};

/// A thread runs exactly where a processor keeps it.
pub fn one_each()
    ensures { (scenario : Scenario) (order : Order) (h : List Entry)
        → IsScenario scenario
        → IsLegal scenario order h
        → AgreesOnRunning (state_after scenario h) }
{}

/// The stamps of ready and running threads are distinct and below the next one.
pub fn stamps_differ()
    ensures { (scenario : Scenario) (order : Order) (h : List Entry)
        → IsScenario scenario
        → IsLegal scenario order h
        → IsStamped (state_after scenario h).threads (state_after scenario h).stamps }
{}

/// There are as many threads, processors and channels as in the scenario, and no command changes the other sizes.
pub fn sizes_stay()
    ensures { (scenario : Scenario) (order : Order) (h : List Entry)
        → IsScenario scenario
        → IsLegal scenario order h
        → IsCounted scenario (state_after scenario h) }
{}

/// Two processors never run one thread.
pub fn none_shared()
    ensures { (scenario : Scenario) (order : Order) (h : List Entry)
        → IsScenario scenario
        → IsLegal scenario order h
        → NoneShared (state_after scenario h) }
{}

/// Each thread stands at an operation of its program that fits its state, with nothing left exactly where that has no
/// end; what is left, its moment to wake, its own priority and partition have their ranges.
pub fn places_fit()
    ensures { (scenario : Scenario) (order : Order) (h : List Entry)
        → IsScenario scenario
        → IsLegal scenario order h
        → Each (IsThreadFit scenario (length (state_after scenario h).rows)) (state_after scenario h).threads }
{}

/// A ready thread has time left, and so has a running one unless the run is over for its processor; the time that a
/// thread ran since its stamp is at most the time that has passed, and that of its processor where it runs.
pub fn time_is_left()
    ensures { (scenario : Scenario) (order : Order) (h : List Entry)
        → IsScenario scenario
        → IsLegal scenario order h
        → Each (λ x t. IsThreadTimed scenario (after scenario h).reboot h t) (state_after scenario h).threads }
{}

/// A step gives at most one stamp for each thread and two more; so for 4,000,000 entries all stamps of ready and
/// running threads are below 2^32.
pub fn stamps_are_few()
    ensures { (scenario : Scenario) (order : Order) (h : List Entry)
        → IsScenario scenario
        → IsLegal scenario order h
        → HasFewStamps (state_after scenario h) h }
{}

/// Below the horizon each sleeper sleeps until a moment later than the begin of the tick, so nobody sleeps too long.
pub fn sleepers_wake()
    ensures { (scenario : Scenario) (order : Order) (h : List Entry)
        → IsScenario scenario
        → IsLegal scenario order h
        → Each (λ x t. SleepsOn scenario h t) (state_after scenario h).threads }
{}
