//! A run of two processors, with a seat for each.
ghost use Rattle.std.specs.Prelude.{◌≡◌};
ghost use Rattle.aps_lock.specs.Seats.{IsSeatOf};

use super::two_processors::opened;
use aps_core::{Core, Turn};
use aps_cpu::{Driven, Gate, drive};
use aps_lock::{CpuSeat, Dispatch};
use aps_model::{CpuId, Order};
use std::alloc::Global;
use std::process::Abort;
use std::sync::Wait;

#[derive(Drop)]
pub struct TwoSeats {
    dispatch: Dispatch,
    zero: CpuSeat,
    one: CpuSeat,
    ghost of_zero: { IsSeatOf dispatch zero },
    ghost of_one: { IsSeatOf dispatch one },
    ghost zero_alone: { (zero.first ≡ 0) × (zero.last ≡ 0) },
    ghost one_alone: { (one.first ≡ 1) × (one.last ≡ 1) },
    ghost two: { dispatch.setup.scenario.shape.cpus ≡ 2 },
}

impl TwoSeats {
    /// The run at its start.
    pub fn open(rt: &impl Abort, alloc: Global, order: Order) -> TwoSeats {
        let (dispatch, mut zero) = opened(rt, alloc, order);
        assert!(rt; zero.last().index() == 1);
        let one = dispatch.split(&mut zero, CpuId::at(1));
        TwoSeats {
            dispatch,
            zero,
            one,
        }
    }

    /// A turn of processor 0.
    pub fn turn_of_zero<R: Wait>(&mut self, rt: &R) -> Turn {
        self.dispatch.turn(rt, &mut self.zero, CpuId::at(0))
    }

    /// A turn of processor 1.
    pub fn turn_of_one<R: Wait>(&mut self, rt: &R) -> Turn {
        self.dispatch.turn(rt, &mut self.one, CpuId::at(1))
    }

    /// Each processor has a driver at hand.
    pub fn come_to_hand(&self) {
        self.dispatch.set_at_hand(&self.zero, true);
        self.dispatch.set_at_hand(&self.one, true);
    }

    /// Waits for the turn of processor 1.
    pub fn await_turn_of_one<R: Wait>(&self, rt: &R) {
        self.dispatch.await_turn(rt, &self.one);
    }

    /// Waits while another driver takes turns in vain, as processor 0.
    pub fn await_vain_of_zero<R: Wait>(&self, rt: &R) {
        self.dispatch.await_vain(rt, &self.zero);
    }

    /// Waits while another driver takes turns in vain, as processor 1.
    pub fn await_vain_of_one<R: Wait>(&self, rt: &R) {
        self.dispatch.await_vain(rt, &self.one);
    }

    /// Drives processor 1 alone, which wasn't driven yet.
    pub fn drive_one<R: Abort + Wait, G: Gate>(&mut self, rt: &R, gate: &G) -> Driven {
        assert!(rt; self.one.waited() == 0);
        drive(rt, &self.dispatch, &mut self.one, gate)
    }

    /// How many entries each seat has seen.
    pub fn seen_len(&self) -> (u64, u64) {
        (self.zero.seen_len(), self.one.seen_len())
    }

    /// How many turns in a row of each seat found that the other one has the turn.
    pub fn waited(&self) -> (u64, u64) {
        (self.zero.waited(), self.one.waited())
    }

    /// Whether the history has grown beyond what each seat has seen.
    pub fn has_grown(&mut self) -> (bool, bool) {
        let zero = self.dispatch.has_grown(&mut self.zero);
        (zero, self.dispatch.has_grown(&mut self.one))
    }

    /// The seat of processor 1 sees what the other one has seen.
    pub fn meet(&mut self) {
        self.dispatch.meet(&mut self.zero, &mut self.one);
    }

    /// The run, where the first seat takes in the second.
    pub fn close(self) -> Core {
        let TwoSeats {
            dispatch,
            mut zero,
            one,
        } = self;
        dispatch.join(&mut zero, one);
        dispatch.close(zero)
    }
}
