//! Gates: what a driver calls before each of its turns.
use aps_lock::CpuSeat;
use aps_model::CpuId;
use std::sync::Wait;
use std::thread;
use std::time::{Clock, Duration, Instant};

/// What a driver calls before each of its turns. It has no access to the core, and no answer.
pub trait Gate {
    /// Called with the seat and the processor of it that turns next. It may wait, and the driver waits with it. No contract
    /// says what it does.
    fn enter<R: Wait>(&self, rt: &R, seat: &CpuSeat, cpu: CpuId);

    /// Whether it never holds the driver up. The others then needn't be told of each call. This is advice.
    fn is_open(&self) -> bool {
        false
    }

    /// What a clock of the machine says, if the gate has one. This is advice: by it drivers that share the processors of
    /// the machine see how long a yield takes, and without one they don't yield before they sleep.
    fn now(&self) -> Option<Instant> {
        None
    }

    /// Lets a millisecond pass, if the gate has a clock, and else another thread run. A driver calls it where those whose
    /// turn it is have no driver at hand. This is advice.
    fn pause(&self) {
        thread::yield_now();
    }
}

/// The gate that returns at once.
#[derive(Drop)]
pub struct OpenGate;

impl Gate for OpenGate {
    fn enter<R: Wait>(&self, _rt: &R, _seat: &CpuSeat, _cpu: CpuId) {}

    fn is_open(&self) -> bool {
        true
    }
}

/// The gate that returns at once, and has a clock.
#[derive(Drop)]
pub struct ClockGate<'a, C> {
    clock: &'a C,
}

impl<C> ClockGate<'_, C> {
    /// A gate with this clock.
    pub fn new(clock: &C) -> ClockGate<'_, C> {
        ClockGate { clock }
    }
}

impl<C: Clock> Gate for ClockGate<'_, C> {
    fn enter<R: Wait>(&self, _rt: &R, _seat: &CpuSeat, _cpu: CpuId) {}

    fn is_open(&self) -> bool {
        true
    }

    fn now(&self) -> Option<Instant> {
        match Instant::now(self.clock) {
            Ok(now) => Some(now),
            Err(_) => None,
        }
    }

    fn pause(&self) {
        thread::sleep(self.clock, Duration::from_millis(1));
    }
}
