//! A run of two processors, with a seat for each.
ghost use Rattle.std.specs.Prelude.{◌≡◌, ◌≤◌};
ghost use Rattle.aps_live.specs.LiveHistory.{NamesThread};
ghost use Rattle.aps_live.specs.Seats.{IsSeatOf};
ghost use Rattle.test_parts.specs.Opened.{HasFour};
ghost use Rattle.aps_model.specs.Limits.{last_moment};

use super::two_processors::opened;
use aps_live::{Live, LiveEvent, LiveHistory, LiveSeat, LiveTurn};
use aps_model::{CpuId, Nanos, ThreadId};
use std::alloc::Global;
use std::process::Abort;
use std::sync::Wait;

#[derive(Drop)]
pub struct TwoSeats {
    live: Live,
    zero: LiveSeat,
    one: LiveSeat,
    ghost of_zero: { IsSeatOf live zero },
    ghost of_one: { IsSeatOf live one },
    ghost zero_alone: { (zero.first ≡ 0) × (zero.last ≡ 0) },
    ghost one_alone: { (one.first ≡ 1) × (one.last ≡ 1) },
    ghost two: { live.setup.scenario.shape.cpus ≡ 2 },
    ghost four: { HasFour live },
}

impl TwoSeats {
    /// The run at its start.
    pub fn open(rt: &impl Abort, alloc: Global) -> TwoSeats {
        let (live, mut zero) = opened(rt, alloc);
        assert!(rt; zero.first().index() == 0 && zero.last().index() == 1);
        let one = live.split(&mut zero, CpuId::at(1));
        TwoSeats { live, zero, one }
    }

    /// A call for processor 0, which wakes this thread.
    pub fn wake_by_zero<R: Wait>(&mut self, rt: &R, now: Nanos, x: usize) -> LiveTurn
        requires now { now ≤ last_moment }
        requires x { x ≤ 3 }
    {
        let event = LiveEvent::Wake(ThreadId::at(x));
        self.live
            .live_step(rt, &mut self.zero, CpuId::at(0), now, event)
    }

    /// A call for processor 1, which wakes this thread.
    pub fn wake_by_one<R: Wait>(&mut self, rt: &R, now: Nanos, x: usize) -> LiveTurn
        requires now { now ≤ last_moment }
        requires x { x ≤ 3 }
    {
        let event = LiveEvent::Wake(ThreadId::at(x));
        self.live
            .live_step(rt, &mut self.one, CpuId::at(1), now, event)
    }

    /// How many entries each seat has seen.
    pub fn seen_len(&self) -> (u64, u64) {
        (self.zero.seen_len(), self.one.seen_len())
    }

    /// The history at the end, where the first seat takes in the second.
    pub fn close(self) -> LiveHistory {
        let TwoSeats {
            live,
            mut zero,
            one,
        } = self;
        live.join(&mut zero, one);
        live.close(zero)
    }
}
