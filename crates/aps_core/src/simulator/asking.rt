//! How the partitions of a core stand after its entries, and which of them have a candidate.
ghost use Rattle.std.specs.Prelude.{◌≡◌, ℕ, ◌/◌, ◌<◌, length, slice_index_or, false};
ghost use Rattle.aps_model.specs.Budget.{all_parts};
ghost use Rattle.aps_model.specs.Limits.{most_partitions};
ghost use Rattle.aps_model.specs.Pick.{contenders};
ghost use Rattle.laws_runs.specs.Moments.{moment};
ghost use Rattle.aps_core.specs.Run.{state_of_run};
ghost use Rattle.aps_core.specs.Scan.{has_candidate};

use super::Core;
use aps_model::PartFacts;

impl Core {
    /// Each partition in the window at the tick in which the last entry ends. There is an entry, and a place for each row
    /// that stands after it.
    pub fn stand(&self, parts: &mut [PartFacts])
        requires some { 0 < length self.now.entries }
        requires one_each { length parts.old ≡ length (state_of_run self.now).rows }
        ensures { parts.new ≡ all_parts (state_of_run self.now).shape (state_of_run self.now).rows self.now.entries
            (moment self.now.entries / (state_of_run self.now).shape.tick) }
    {
        self.scheduler.machine.stand(&self.scheduler.window, parts);
    }

    /// Which partitions have a candidate among the threads that are ready after the entries so far, where the partitions
    /// stand so.
    pub fn candidates(&self, parts: &[PartFacts]) -> [bool; 32]
        ensures { (p : ℕ) → p < most_partitions
            → slice_index_or result p false ≡ has_candidate parts.now p (contenders (state_of_run self.now)) }
    {
        self.scheduler.machine.candidates(parts)
    }
}
