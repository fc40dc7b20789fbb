//! What the entries of a legal history bill.
ghost use Rattle.std.specs.Prelude.{List, [], ◌∷◌, ◌++◌, ◌/◌};
ghost use Rattle.aps_model.specs.declared.entry.Entry.{Entry};
ghost use Rattle.aps_model.specs.declared.entry.Order.{Order};
ghost use Rattle.aps_model.specs.Scenario.{Scenario};
ghost use Rattle.aps_model.specs.Valid.{IsScenario};
ghost use Rattle.aps_model.specs.After.{after, state_after};
ghost use Rattle.aps_model.specs.Legal.{IsLegal};
ghost use Rattle.laws_runs.specs.Untouched.{IsStepOf, IsPickSaid};
ghost use Rattle.aps_model.specs.Tiled.{IsTiled, IsBilledAsInherited};
ghost use Rattle.laws_runs.specs.Window.{Walks, Tiles, wides, lanes_at_start};

/// A step bills what its processor kept, changes of another processor the flag alone, and leaves its thread as it was.
pub fn others_untouched()
    ensures { (scenario : Scenario) (order : Order) (h : List Entry) (e : Entry)
        → IsScenario scenario
        → IsLegal scenario order (h ++ e ∷ [])
        → IsStepOf scenario (state_after scenario h) h e.cpu e (state_after scenario (h ++ e ∷ [])) }
{}

/// What a processor keeps is the thread that its entry picked, with the partition and the mark that this thread
/// inherits then.
pub fn kept_as_inherited()
    ensures { (scenario : Scenario) (order : Order) (h : List Entry) (e : Entry)
        → IsScenario scenario
        → IsLegal scenario order (h ++ e ∷ [])
        → IsPickSaid (state_after scenario h) h e.cpu e (state_after scenario (h ++ e ∷ [])) (after scenario (h ++ e ∷ [])).reboot }
{}

/// Each entry begins where its processor stood, bills what it kept, and ends within the tick.
pub fn entries_walk()
    ensures { (scenario : Scenario) (order : Order) (h : List Entry)
        → IsScenario scenario
        → IsLegal scenario order h
        → Walks scenario.shape.tick (lanes_at_start scenario) (wides scenario h) × Tiles (lanes_at_start scenario) (wides scenario h) }
{}

/// Each entry of a legal history begins where its processor's last one ended, and crosses no boundary.
pub fn legal_is_tiled()
    ensures { (scenario : Scenario) (order : Order) (h : List Entry)
        → IsScenario scenario
        → IsLegal scenario order h
        → IsTiled scenario.shape.tick h }
{}

/// Each entry runs what its processor's last one picked, and bills the partition that this thread inherited then.
pub fn legal_is_billed()
    ensures { (scenario : Scenario) (order : Order) (h : List Entry)
        → IsScenario scenario
        → IsLegal scenario order h
        → IsBilledAsInherited scenario h }
{}
