//! What samples tell of a window is what the scheduler goes by.
ghost use Rattle.std.specs.Prelude.{◌≡◌, ℕ, ◌<◌, List, slice_index};
ghost use Rattle.aps_model.specs.declared.entry.Entry.{Entry};
ghost use Rattle.aps_model.specs.declared.entry.Order.{Order};
ghost use Rattle.aps_model.specs.Legal.{IsLegal};
ghost use Rattle.aps_model.specs.Limits.{most_partitions};
ghost use Rattle.aps_model.specs.Loaded.{state_of_tick};
ghost use Rattle.aps_model.specs.Scenario.{Scenario};
ghost use Rattle.aps_model.specs.Usage.{window_critical, window_used};
ghost use Rattle.aps_model.specs.Valid.{IsScenario};
ghost use Rattle.view_samples.specs.Sample.{sample_of};

/// The usage in the sample of a tick, and what of it is critical, is that of the window at this tick, by the shape that stands there:
/// the same numbers by which partitions are in budget or not.
pub fn usage_is_the_windows()
    ensures used { (scenario : Scenario) (order : Order) (h : List Entry) (j p : ℕ)
        → IsScenario scenario
        → IsLegal scenario order h
        → p < most_partitions
        → slice_index (sample_of scenario h j).usage.used p ≡ window_used (state_of_tick scenario h j).shape h j p }
    ensures critical { (scenario : Scenario) (order : Order) (h : List Entry) (j p : ℕ)
        → IsScenario scenario
        → IsLegal scenario order h
        → p < most_partitions
        → slice_index (sample_of scenario h j).usage.critical p ≡ window_critical (state_of_tick scenario h j).shape h j p }
{}
