//! Why a thread runs, or doesn't.
ghost use Rattle.std.specs.Prelude.{◌≡◌, ◌<◌, ◌≤◌, IfOk, IfSome, None, length};
ghost use Rattle.laws_runs.specs.Ids.{NamesKnown};
ghost use Rattle.view_explain.specs.Because as spec;
ghost use Rattle.view_explain.specs.Past.{WakesAt, last_wake};
ghost use Rattle.aps_model.specs.Limits.{longest_tick};

use crate::scene::Scene;
use aps_model::{ChannelId, CpuId, Nanos, NoMemory, PartitionId, Pick, State, ThreadId};
use std::alloc::Global;

/// Why a thread runs at a moment, or doesn't. Moments are ns.
#[derive(Clone, Copy, PartialEq, Eq)]
pub enum Because {
    /// It runs, and is billed and marked as its pick fixed it.
    Running {
        cpu: CpuId,
        partition: PartitionId,
        critical: bool,
    },
    /// It is ready, and no candidate.
    Shut,
    /// It is a candidate. Some processor is idle or runs a thread that isn't greater: the first of them steps at this moment.
    NotYet(Nanos),
    /// It is a candidate. So many processors run threads that are greater, and so many ready ones are.
    Outranked {
        running: u64,
        ready: u64,
    },
    /// It sleeps until this boundary.
    Sleeping(Nanos),
    WaitsForReply(ThreadId),
    WaitsForReceiver(ChannelId),
    WaitsForMessage(ChannelId),
    Gone,
}

impl Scene {
    /// Why the thread runs, or doesn't. `NoMemory` comes where memory runs out.
    pub fn because(&self, alloc: Global, x: ThreadId) -> Result<Because, NoMemory>
        ensures { IfOk result (λ because. because ≡ spec.because self.now x) }
    {
        let thread = self.thread(x);
        self.because_by(alloc, x, &thread.state)
    }

    /// The server that a thread in this state waits for: its own one, or the one that took a message from the channel last.
    pub fn waits_for(&self, state: &State) -> Option<ThreadId>
        requires { NamesKnown self.now.scenario state.now }
        ensures same { result ≡ spec.waits_for self.now state.now }
        ensures known { IfSome result (λ y. y < length self.now.scenario.threads) }
    {
        match state {
            State::Replying(y) => Some(*y),
            State::Sending(c) => self.newest_server(*c),
            _ => None,
        }
    }

    fn because_by(&self, alloc: Global, x: ThreadId, state: &State) -> Result<Because, NoMemory>
        requires { WakesAt state.now }
        ensures { IfOk result (λ because. because ≡ spec.because_by self.now x state.now) }
    {
        match state {
            State::Ready => self.because_ready(alloc, x),
            State::Running(c) => Ok(running_by(*c, &self.cpu(*c).running)),
            State::Sleeping(until) => Ok(Because::Sleeping(boundary_from(
                self.shape().tick,
                *until,
            ))),
            State::Sending(c) => Ok(Because::WaitsForReceiver(*c)),
            State::Receiving(c) => Ok(Because::WaitsForMessage(*c)),
            State::Replying(y) => Ok(Because::WaitsForReply(*y)),
            State::Gone => Ok(Because::Gone),
        }
    }

    fn because_ready(&self, alloc: Global, x: ThreadId) -> Result<Because, NoMemory>
        ensures { IfOk result (λ because. because ≡ spec.because_ready self.now x) }
    {
        if !self.is_open(x) {
            return Ok(Because::Shut);
        }
        match self.chance(x) {
            Some(moment) => Ok(Because::NotYet(moment)),
            None => self.outranked(alloc, x),
        }
    }

    fn outranked(&self, alloc: Global, x: ThreadId) -> Result<Because, NoMemory>
        ensures { IfOk result (λ because. because ≡ spec.waiting_by self.now x None) }
    {
        let above = self.above(alloc, x)?;
        Ok(Because::Outranked {
            running: self.cpu_count() as u64,
            ready: above.len() as u64,
        })
    }
}

/// That a thread runs on this processor, which keeps this pick.
fn running_by(c: CpuId, pick: &Option<Pick>) -> Because
    ensures { result ≡ spec.because_running c pick.now }
{
    match pick {
        Some(pick) => Because::Running {
            cpu: c,
            partition: pick.partition,
            critical: pick.critical,
        },
        None => Because::Running {
            cpu: c,
            partition: PartitionId::at(0),
            critical: false,
        },
    }
}

/// The first boundary at this moment or later.
fn boundary_from(tick: u64, moment: Nanos) -> Nanos
    requires some { 0 < tick }
    requires short { tick ≤ longest_tick }
    requires early { moment ≤ last_wake }
    ensures { result ≡ spec.boundary_from tick moment }
{
    (moment + tick - 1) / tick * tick
}
