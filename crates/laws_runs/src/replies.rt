//! Which commands a legal history has answered.
ghost use Rattle.std.specs.Prelude.{◌≡◌, ℕ, ◌≤◌, List, length, nat_eq, slice_get};
ghost use Rattle.std.specs.List.{count_by};
ghost use Rattle.aps_model.specs.declared.command.Reply.{Reply};
ghost use Rattle.aps_model.specs.declared.entry.Entry.{Entry};
ghost use Rattle.aps_model.specs.declared.entry.Order.{Order};
ghost use Rattle.aps_model.specs.Scenario.{Scenario};
ghost use Rattle.aps_model.specs.Valid.{IsScenario};
ghost use Rattle.aps_model.specs.After.{state_after};
ghost use Rattle.aps_model.specs.Legal.{IsLegal};
ghost use Rattle.laws_runs.specs.Answered.{once_below, places_answered, places_below};
ghost use Rattle.laws_runs.specs.Boundaries.{ticks_begun};

/// The replies answer the commands of the ticks that have begun, in order of tick, then of place; each of these
/// commands once and no other.
pub fn commands_once()
    ensures in_order { (scenario : Scenario) (order : Order) (h : List Entry)
        → IsScenario scenario
        → IsLegal scenario order h
        → places_answered (state_after scenario h).replies ≡ places_below scenario (ticks_begun scenario.shape.tick h) }
    ensures once { (scenario : Scenario) (order : Order) (h : List Entry) (i : ℕ)
        → IsScenario scenario
        → IsLegal scenario order h
        → count_by (λ (reply : Reply). nat_eq reply.command i) (state_after scenario h).replies
        ≡ once_below (ticks_begun scenario.shape.tick h) (slice_get scenario.commands i) }
{}

/// There are at most as many replies as commands.
pub fn replies_bounded()
    ensures { (scenario : Scenario) (order : Order) (h : List Entry)
        → IsScenario scenario
        → IsLegal scenario order h
        → length (state_after scenario h).replies ≤ length scenario.commands }
{}
