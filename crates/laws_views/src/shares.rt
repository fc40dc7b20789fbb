//! What `shares` tells of a partition is what the laws of windows allow, whatever the load.
ghost use Rattle.std.specs.Prelude.{◌≡◌, ℕ, ◌<◌, ◌≤◌, ◌++◌, List, [], ◌∷◌, true, Some, None, IfSome};
ghost use Rattle.aps_model.specs.declared.entry.Entry.{Entry};
ghost use Rattle.aps_model.specs.declared.entry.Order.{Order};
ghost use Rattle.aps_model.specs.Legal.{IsLegal};
ghost use Rattle.aps_model.specs.Limits.{most_partitions};
ghost use Rattle.aps_model.specs.Loaded.{finished_ticks};
ghost use Rattle.aps_model.specs.Scenario.{Scenario};
ghost use Rattle.aps_model.specs.Valid.{IsScenario};
ghost use Rattle.view_samples.specs.Sample.{sample_of};
ghost use Rattle.view_shares.specs.Share.{has_had};
ghost use Rattle.view_shares.specs.Shares.{share_of, tick_of_all};
ghost use Rattle.view_shares.specs.Spent.{overspent_of};
ghost use Rattle.laws_views.specs.Bankrupt.{bankrupt_in, overspent_at};
ghost use Rattle.laws_views.specs.Shares.{HadItsShare};

/// The number told as `beyond` is below the time of all processors in a tick: it is the greatest, over all windows without a
/// change, of what the partition used beyond its allowance, its critical time and its free time (ns).
pub fn beyond_is_small()
    ensures { (scenario : Scenario) (order : Order) (h : List Entry) (p : ℕ) → IsScenario scenario → IsLegal scenario order h
        → p < most_partitions → IfSome (share_of scenario h p).beyond (λ amount. amount.ns < tick_of_all scenario.shape) }
{}

/// The number told as `short` is at most the one told beside it as `others`: the greatest amount by which the partition falls
/// short of its allowance in a window without a change in which it always had a candidate and was always in budget is at most
/// what the others may take from it there (ns).
pub fn short_is_small()
    ensures { (scenario : Scenario) (order : Order) (h : List Entry) (p : ℕ) → IsScenario scenario → IsLegal scenario order h
        → p < most_partitions → IfSome (share_of scenario h p).short (λ short. short.ns ≤ short.others) }
{}

/// In each window without a change in which the partition counts as one that had had its share, it had: in the window that ends
/// with some tick of this one it used its whole allowance.
pub fn had_is_had()
    ensures { (scenario : Scenario) (order : Order) (h : List Entry) (j p : ℕ) → IsScenario scenario → IsLegal scenario order h
        → p < most_partitions → j < finished_ticks scenario.shape h
        → (sample_of scenario h j).unchanged ≡ true → has_had p (sample_of scenario h j) ≡ true
        → HadItsShare scenario h j p }
{}

/// Overspending is listed for exactly the entries whose own test finds a partition bankrupt, each at its end, with what the
/// partition's critical usage exceeds its critical budget by (ns): such an entry adds one, and any other adds nothing.
pub fn overspent_are_bankrupt()
    ensures each { (scenario : Scenario) (order : Order) (h : List Entry) (e : Entry) (p : ℕ)
        → IsScenario scenario
        → IsLegal scenario order (h ++ e ∷ [])
        → bankrupt_in scenario h e.cpu ≡ Some p
        → overspent_of scenario (h ++ e ∷ []) ≡ overspent_of scenario h ++ overspent_at scenario h e p ∷ [] }
    ensures others { (scenario : Scenario) (order : Order) (h : List Entry) (e : Entry)
        → IsScenario scenario
        → IsLegal scenario order (h ++ e ∷ [])
        → bankrupt_in scenario h e.cpu ≡ None → overspent_of scenario (h ++ e ∷ []) ≡ overspent_of scenario h }
    ensures none { (scenario : Scenario) → overspent_of scenario [] ≡ [] }
{}
