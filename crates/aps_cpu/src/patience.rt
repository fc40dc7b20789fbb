//! How a driver waits where more drivers than the machine has processors share these.
use crate::gate::Gate;
use aps_lock::{CpuSeat, Dispatch};
use std::time::Duration;
use std::{hint, thread};

/// So often a driver looks for its turn before it yields.
const LOOKS_A_YIELD: u32 = 16;

/// So often it yields before it sleeps: for some hundreds of microseconds, in which all others have had turns.
const MOST_YIELDS: u32 = 400;

/// A yield that takes longer, in ns, tells that the processor of the machine has other work.
const LONG_YIELD: u128 = 200_000;

/// After a long yield a driver goes to sleep at once so many times, at first.
const SHORT_PAUSE: u32 = 64;

/// The most times in a row that it does.
const LONG_PAUSE: u32 = 16_384;

/// How often a driver has to do without yields. To yield and come back costs less than to sleep and be woken, but where the
/// processor has other work a driver comes back from a yield only when a time slice is over.
#[derive(Drop)]
pub(crate) struct Patience {
    /// For so many waits more it doesn't yield.
    pause: u32,
    /// For how many after the next long yield. It doubles each time.
    next_pause: u32,
}

impl Patience {
    /// That of a driver whose yields took no time yet.
    pub(crate) fn new() -> Patience {
        Patience {
            pause: 0,
            next_pause: SHORT_PAUSE,
        }
    }

    /// Yields until a processor of the seat may have the turn, and tells whether it may; no longer than a while. It comes
    /// back at once where the driver does without yields, and the gate has to have a clock.
    pub(crate) fn yields_to_turn<G: Gate>(
        &mut self,
        dispatch: &Dispatch,
        seat: &CpuSeat,
        gate: &G,
    ) -> bool {
        if self.pause > 0 {
            self.pause -= 1;
            return false;
        }
        for _ in 0..MOST_YIELDS {
            if sees_turn(dispatch, seat) {
                return true;
            }
            if !is_yield_short(gate) {
                self.pause();
                return false;
            }
        }
        false
    }

    /// A yield took long.
    fn pause(&mut self) {
        self.pause = self.next_pause;
        self.next_pause = self.next_pause.saturating_mul(2).min(LONG_PAUSE);
    }
}

/// Looks some times whether a processor of the seat may have the turn.
fn sees_turn(dispatch: &Dispatch, seat: &CpuSeat) -> bool {
    for _ in 0..LOOKS_A_YIELD {
        if dispatch.may_turn(seat) {
            return true;
        }
        hint::spin_loop();
    }
    false
}

/// Yields, and tells whether that took little time by the gate's clock.
fn is_yield_short<G: Gate>(gate: &G) -> bool {
    let Some(before) = gate.now() else {
        return false;
    };
    thread::yield_now();
    match gate.now() {
        Some(after) => after.duration_since(before).as_nanos() <= LONG_YIELD,
        None => false,
    }
}
