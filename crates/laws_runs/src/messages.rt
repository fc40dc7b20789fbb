//! Messages, receivers and inheritance in a legal history.
ghost use Rattle.std.specs.Prelude.{◌≡◌, ℕ, List, ◌/◌};
ghost use Rattle.aps_model.specs.declared.entry.Entry.{Entry};
ghost use Rattle.aps_model.specs.declared.entry.Order.{Order};
ghost use Rattle.aps_model.specs.Scenario.{Scenario};
ghost use Rattle.aps_model.specs.Valid.{IsScenario};
ghost use Rattle.aps_model.specs.SchedulerState.{channel_at};
ghost use Rattle.aps_model.specs.After.{state_after};
ghost use Rattle.aps_model.specs.Legal.{IsLegal};
ghost use Rattle.laws_runs.specs.Waits.{IsWaiting, state_at};
ghost use Rattle.laws_runs.specs.Chains.{IsChained};
ghost use Rattle.laws_runs.specs.Ids.{IsInRange};
ghost use Rattle.laws_runs.specs.Servers.{ChangesOnlyServer, IsNobodysClient};
ghost use Rattle.aps_model.specs.declared.state.State.TheVariants.{Running};
ghost use Rattle.aps_model.specs.SchedulerState.{SchedulerState};

/// A thread waits at a channel or for a reply exactly where its state says so, once, and triples lead to older ones.
pub fn waiting_stands()
    ensures { (scenario : Scenario) (order : Order) (h : List Entry)
        → IsScenario scenario
        → IsLegal scenario order h
        → IsWaiting (state_at (state_after scenario h)) (channel_at (state_after scenario h)) (state_after scenario h).triples }
{}

/// A server has its client's values, raised by what waits at the channel of its triple, and who serves nobody has its
/// own.
pub fn servers_inherit()
    ensures { (scenario : Scenario) (order : Order) (h : List Entry)
        → IsScenario scenario
        → IsLegal scenario order h
        → IsChained (state_after scenario h) }
{}

/// Each number of a thread, processor, channel or partition names one that exists, in states, messages, receivers,
/// triples, inherited values and what processors keep; each priority that waits or is inherited is between 1 and 255.
pub fn ids_fit()
    ensures { (scenario : Scenario) (order : Order) (h : List Entry)
        → IsScenario scenario
        → IsLegal scenario order h
        → IsInRange scenario (state_after scenario h) }
{}

/// Where a thread that is nobody's client serves anew or serves no longer, no other thread's inherited values change.
pub fn only_the_server_changes()
    ensures { (s : SchedulerState) (x : ℕ) → IsNobodysClient s.triples x → ChangesOnlyServer s x }
{}

/// Whoever runs is nobody's client.
pub fn runners_are_free()
    ensures { (scenario : Scenario) (order : Order) (h : List Entry) (x c : ℕ)
        → IsScenario scenario
        → IsLegal scenario order h
        → state_at (state_after scenario h) x ≡ Running c
        → IsNobodysClient (state_after scenario h).triples x }
{}
