//! On which track of a trace something stands: a viewer shows a track as a thread of a process. The processors are threads of one
//! process, and each partition is a process with the threads that the scenario gives it. No process has the number of a thread.
ghost use Rattle.std.specs.Prelude.{◌≡◌};
ghost use Rattle.view_trace_events.specs.Track as spec;

use aps_model::{CpuId, PartitionId, ThreadId, ThreadRow};

/// The process of the processors.
const PROCESSORS: usize = 3000;

/// The process of partition 0, which those of the others follow.
const FIRST_PARTITION: usize = 3001;

/// The thread of processor 0, which those of the others follow.
const FIRST_PROCESSOR: usize = 2001;

/// The thread of thread 0 of the scenario, which those of the others follow.
const FIRST_THREAD: usize = 1;

/// A process and a thread of it, as numbers; thread 0 is none of its threads.
#[derive(Clone, Copy, PartialEq, Eq)]
pub struct Track {
    pub process: usize,
    pub thread: usize,
}

/// Of all processors together.
pub fn of_processors() -> Track
    ensures { result ≡ spec.of_processors }
{
    Track {
        process: PROCESSORS,
        thread: 0,
    }
}

pub fn of_processor(c: CpuId) -> Track
    ensures { result ≡ spec.of_processor c }
{
    Track {
        process: PROCESSORS,
        thread: FIRST_PROCESSOR + c.index(),
    }
}

pub fn of_partition(p: PartitionId) -> Track
    ensures { result ≡ spec.of_partition p }
{
    Track {
        process: FIRST_PARTITION + p.index(),
        thread: 0,
    }
}

/// Of this thread, in the process of the partition that the scenario's threads give it.
pub fn of_thread(threads: &[ThreadRow], x: ThreadId) -> Track
    ensures { result ≡ spec.of_thread threads.now x }
{
    let partition = match threads.get(x.index()) {
        Some(row) => row.partition,
        None => PartitionId::at(0),
    };
    Track {
        process: FIRST_PARTITION + partition.index(),
        thread: FIRST_THREAD + x.index(),
    }
}
