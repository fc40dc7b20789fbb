//! The threads and processors as they stand between two steps.
ghost use Rattle.std.specs.Prelude.{◌≡◌, ℕ, ◌<◌, ◌≤◌, All, length, IfOk, IfSome, Some, None};
ghost use Rattle.aps_model.specs.Pick.{greatest, missing};
ghost use Rattle.aps_ready.specs.Small.{IsSmall};
ghost use Rattle.aps_live.specs.declared.event.LiveEvent.TheVariants.{Wake};
ghost use Rattle.aps_live.specs.LiveState.{live_cpu_at, live_opening};
ghost use Rattle.aps_live.specs.LiveStep.{doing_after, live_chosen, live_contenders, released, woken};
ghost use Rattle.aps_live.specs.Machine.{IsReadyAmong};
ghost use Rattle.aps_model.specs.Limits.{most_entries, most_partitions};

mod part;
mod seat;
mod start;

use crate::event::LiveEvent;
use crate::thread::{Doing, LiveThread};
use aps_merit::is_critical_pick;
use aps_model::{
    Contender, CpuId, Free, NoMemory, PartFacts, PartitionId, Pick, Scenario, ThreadId,
};
use aps_ready::Ready;
use std::alloc::Global;
use std::marker::Model;

/// The threads, the next stamp, and who runs on each processor. Contracts see it as the live state of the definitions, and
/// each method is the part of the definitions' step that its clause names.
pub struct LiveMachine {
    threads: Vec<LiveThread>,
    stamps: u64,
    cpus: Vec<Option<Pick>>,
    ready: Ready,
}

// Written out, so that it is proved here alone: a derived drop is proved again in each crate that lets a value go.
impl Drop for LiveMachine {
    fn drop(self) {
        let Self {
            threads: _,
            stamps: _,
            cpus: _,
            ready: _,
        } = self;
    }
}

impl Model for LiveMachine {
    ghost use Rattle.aps_live.specs.LiveState.{LiveState};
    ghost use Rattle.aps_live.specs.Machine.{IsMachine};

    ghost Value = { LiveState };

    ghost use Rattle.aps_live.specs.MachineView.{state_of};

    ghost view = { state_of };

    ghost invariant = { λ m. IsMachine (state_of m) m.ready };
}

impl LiveMachine {
    /// All threads wait, and no processor runs one. It takes all memory that the steps need.
    pub fn start(alloc: Global, scenario: &Scenario) -> Result<LiveMachine, NoMemory>
        ensures { IfOk result (λ m. m ≡ live_opening scenario.now) }
    {
        let threads = start::start_threads(alloc, scenario)?;
        let cpus = start::start_cpus(alloc, scenario.shape().cpus)?;
        let ready = Ready::new(alloc, scenario.threads().len() as u16)?;
        Ok(LiveMachine {
            threads,
            stamps: 0,
            cpus,
            ready,
        })
    }

    /// Who runs on the processor.
    pub fn running(&self, cpu: CpuId) -> Option<Pick>
        requires { cpu < length self.now.cpus }
        ensures { result ≡ live_cpu_at self.now cpu }
    {
        self.cpus[cpu.index()]
    }

    /// The processor lets go of the thread that it ran, which waits where it blocks and is ready otherwise.
    pub fn release(&mut self, cpu: CpuId, event: LiveEvent)
        requires { cpu < length self.old.cpus }
        ensures { self.new ≡ released self.old cpu (doing_after event) (live_cpu_at self.old cpu) }
    {
        if let Some(pick) = self.cpus[cpu.index()] {
            self.cpus[cpu.index()] = None;
            let contender = self.threads[pick.thread.index()].contender;
            let thread = LiveThread {
                contender,
                doing: doing_after(event),
            };
            seat::seat(&mut self.threads, &mut self.ready, pick.thread, thread);
        }
    }

    /// A waiting thread that is woken is ready, with a new stamp.
    pub fn wake(&mut self, event: LiveEvent)
        requires room { self.old.stamps ≤ most_entries }
        requires named { (x : ℕ) → event ≡ Wake x → x < length self.old.threads }
        ensures { self.new ≡ woken self.old event }
    {
        if let LiveEvent::Wake(x) = event {
            self.wake_thread(x);
        }
    }

    /// The same, of this thread.
    fn wake_thread(&mut self, x: ThreadId)
        requires room { self.old.stamps ≤ most_entries }
        requires inside { x < length self.old.threads }
        ensures { self.new ≡ woken self.old (Wake x) }
    {
        let thread = self.threads[x.index()];
        if let Doing::Waiting = thread.doing {
            let contender = Contender {
                stamp: self.stamps,
                ..thread.contender
            };
            let woken = LiveThread {
                contender,
                doing: Doing::Ready,
            };
            self.stamps += 1;
            seat::seat(&mut self.threads, &mut self.ready, x, woken);
        }
    }

    /// The greatest candidate, which is ready.
    pub fn best(&self, parts: &[PartFacts], free: Free) -> Option<Contender>
        requires { All IsSmall parts.now }
        ensures greatest { result ≡ greatest free parts.now (live_contenders self.now) }
        ensures ready { IfSome result (λ b. IsReadyAmong self.now.threads b) }
    {
        match self.ready.best(parts, free) {
            None => None,
            Some(x) => Some(self.threads[x.index()].contender),
        }
    }

    /// The lowest partition with a budget that has no candidate.
    pub fn missing(&self, parts: &[PartFacts]) -> Option<PartitionId>
        requires { length parts.now ≤ most_partitions }
        ensures { result ≡ missing parts.now (live_contenders self.now) }
    {
        self.ready.missing(parts)
    }

    /// The processor keeps the greatest candidate, or nobody.
    pub fn choose(&mut self, parts: &[PartFacts], cpu: CpuId, best: Option<Contender>)
        requires cpu { cpu < length self.old.cpus }
        requires idle { live_cpu_at self.old cpu ≡ None }
        requires ready { IfSome best (λ b. IsReadyAmong self.old.threads b) }
        ensures { self.new ≡ live_chosen self.old parts.now cpu best }
    {
        match best {
            None => self.cpus[cpu.index()] = None,
            Some(b) => self.run(parts, cpu, b),
        }
    }

    /// The processor keeps this one.
    fn run(&mut self, parts: &[PartFacts], cpu: CpuId, best: Contender)
        requires cpu { cpu < length self.old.cpus }
        requires idle { live_cpu_at self.old cpu ≡ None }
        requires ready { IsReadyAmong self.old.threads best }
        ensures { self.new ≡ live_chosen self.old parts.now cpu (Some best) }
    {
        let x = best.thread;
        let facts = best.facts;
        let partition = facts.partition;
        let part = part::part_at(parts, partition);
        let critical = is_critical_pick(facts, &part);
        let contender = self.threads[x.index()].contender;
        let thread = LiveThread {
            contender,
            doing: Doing::Running(cpu),
        };
        let pick = Pick {
            thread: x,
            partition,
            critical,
        };
        self.cpus[cpu.index()] = Some(pick);
        seat::unseat(&mut self.threads, &mut self.ready, x, thread);
    }
}

/// What the thread that ran does after the event.
fn doing_after(event: LiveEvent) -> Doing
    ensures { result ≡ doing_after event }
{
    match event {
        LiveEvent::Stay => Doing::Ready,
        LiveEvent::Block => Doing::Waiting,
        LiveEvent::Wake(_) => Doing::Ready,
    }
}
