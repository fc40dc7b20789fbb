//! The beginning of a step, and its bill.
ghost use Rattle.std.specs.Prelude.{◌≡◌, ℕ, ◌<◌, ◌≤◌, length, None};
ghost use Rattle.aps_model.specs.Bill.{bill_of};
ghost use Rattle.aps_model.specs.Limits.{last_moment};
ghost use Rattle.aps_model.specs.SchedulerState.{cpu_at, thread_at, with_cpu};
ghost use Rattle.aps_model.specs.Step.{billed};

use super::Machine;
use aps_model::{CpuId, Done, Entry, Nanos, Pick};

impl Machine {
    /// The beginning of the processor's step: its flag is cleared. The answer is what it runs.
    pub fn begin(&mut self, cpu: CpuId) -> Option<Pick>
        requires { cpu < length self.old.cpus }
        ensures same { self.new ≡ with_cpu self.old cpu (record (cpu_at self.old cpu) { flag = None }) }
        ensures running { result ≡ (cpu_at self.old cpu).running }
    {
        let running = self.cpus[cpu.index()].running;
        self.cpus[cpu.index()].flag = None;
        running
    }

    /// The bill: the thread that ran has run so long.
    pub fn bill(&mut self, e: &Entry, running: &Option<Pick>)
        requires forward { e.now.from ≤ e.now.to }
        requires to { e.now.to ≤ last_moment }
        requires since { (x : ℕ) → (thread_at self.old x).since ≤ last_moment }
        ensures { self.new ≡ billed self.old e.now running.now }
    {
        if let Some(pick) = running {
            self.tasks.spend(pick.thread, e.to - e.from);
        }
    }
}

/// The entry of a processor from its last step to now, before anything is done.
pub fn bill_of(cpu: CpuId, from: Nanos, now: Nanos, running: &Option<Pick>) -> Entry
    ensures same { result ≡ bill_of cpu from now running.now }
    ensures from { result.from ≡ from }
    ensures to { result.to ≡ now }
{
    let (ran, billed, critical) = match running {
        None => (None, None, false),
        Some(pick) => (Some(pick.thread), Some(pick.partition), pick.critical),
    };
    Entry {
        from,
        to: now,
        done: Done::Nothing,
        ran,
        picked: None,
        billed,
        starved: None,
        flagged: None,
        cpu,
        critical,
    }
}
