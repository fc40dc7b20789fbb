//! What the threads and the processors of a core do after its entries.
ghost use Rattle.std.specs.Prelude.{◌≡◌};
ghost use Rattle.aps_model.specs.SchedulerState.{cpu_at, thread_at};
ghost use Rattle.aps_core.specs.Run.{state_of_run};

use super::Core;
use aps_model::{CpuId, CpuNow, ThreadId, ThreadNow};

impl Core {
    /// The thread as it stands after the entries so far; where the scenario has no such thread, one that is gone.
    pub fn thread(&self, x: ThreadId) -> ThreadNow
        ensures { result ≡ thread_at (state_of_run self.now) x }
    {
        self.scheduler.machine.thread(x)
    }

    /// The processor as it stands after the entries so far; where the scenario has no such processor, an idle one.
    pub fn cpu(&self, c: CpuId) -> CpuNow
        ensures { result ≡ cpu_at (state_of_run self.now) c }
    {
        self.scheduler.machine.cpu(c)
    }
}
