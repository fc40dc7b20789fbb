//! Threads and processors as they are now.
ghost use Rattle.std.specs.Prelude.{◌≡◌};
ghost use Rattle.aps_model.specs.SchedulerState.{cpu_at, idle, thread_at};

use super::Machine;
use aps_model::{CpuId, CpuNow, ThreadId, ThreadNow};

impl Machine {
    /// The thread of this number as it stands.
    pub fn thread(&self, x: ThreadId) -> ThreadNow
        ensures { result ≡ thread_at self.now x }
    {
        let task = self.task(x);
        ThreadNow {
            own: self.own(x),
            state: task.state,
            place: task.place,
            left: task.left,
            stamp: task.stamp,
            since: task.since,
        }
    }

    /// The processor of this number as it stands.
    pub fn cpu(&self, c: CpuId) -> CpuNow
        ensures { result ≡ cpu_at self.now c }
    {
        match self.cpus.get(c.index()) {
            Some(cpu) => *cpu,
            None => idle(),
        }
    }
}

/// What is read where there is no such processor.
fn idle() -> CpuNow
    ensures { result ≡ idle }
{
    CpuNow {
        running: None,
        flag: None,
    }
}
