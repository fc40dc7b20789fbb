//! Laws of traces. Each function states one, and does nothing.
ghost use Rattle.std.specs.Prelude.{◌≡◌, ◌≢◌, ℕ, ◌<◌, ◌^◌, List};
ghost use Rattle.aps_model.specs.declared.scenario.ThreadRow.{ThreadRow};
ghost use Rattle.view_trace_events.specs.Time.{us_text};
ghost use Rattle.view_trace_events.specs.Track.{IsOwner, track_of};

use aps_model::{CpuId, PartitionId, ThreadId};

/// Who has a track.
#[derive(Clone, Copy, PartialEq, Eq)]
pub enum Owner {
    Processors,
    Processor(CpuId),
    Partition(PartitionId),
    Thread(ThreadId),
}

/// No two of the processors, partitions and threads have the same track, whatever partitions the threads have; nor do two processors
/// or threads have the same number.
pub fn tracks_are_apart()
    ensures track { (threads : List ThreadRow) (a b : Owner) → IsOwner a → IsOwner b → track_of threads a ≡ track_of threads b → a ≡ b }
    ensures thread { (threads : List ThreadRow) (a b : Owner)
        → IsOwner a
        → IsOwner b
        → (track_of threads a).thread ≡ (track_of threads b).thread
        → (track_of threads a).thread ≢ 0 → a ≡ b }
{}

/// No process has the number of a thread.
pub fn processes_are_no_threads()
    ensures { (threads : List ThreadRow) (a b : Owner)
        → IsOwner a
        → IsOwner b
        → (track_of threads a).process ≢ (track_of threads b).thread }
{}

/// No two times of up to 64 bits have the same text: no nanosecond is lost.
pub fn times_are_told_exactly()
    ensures { (a b : ℕ) → a < 2 ^ 64 → b < 2 ^ 64 → us_text a ≡ us_text b → a ≡ b }
{}
