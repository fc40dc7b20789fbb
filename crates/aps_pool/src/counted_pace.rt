//! Moments that are counted, the same in each run.
ghost use Rattle.std.specs.Prelude.{◌≡◌, ℕ, ◌+◌, ◌*◌, ◌%◌, ◌≤◌, ◌<◌, ◌↔◌, IfSome, true};
ghost use Rattle.aps_model.specs.Limits.{last_moment};

use crate::pace::Pace;
use aps_model::{CpuId, Nanos};
use std::sync::{Condvar, Mutex, Wait};
use std::time::Clock;

/// How many turns a run has.
const TURNS: u32 = 80;

/// The time between two turns (ns).
const TURN_NS: Nanos = 250_000;

/// Moments that are counted: the two processors are stepped in turns, and each turn is so much later than the one before.
/// Between its turns each processor's worker does its piece of work, beside that of the other one.
#[derive(Drop)]
pub struct CountedPace {
    turn: Mutex<u32>,
    moved: Condvar,
}

/// The moment of a turn (ns).
fn moment_of(turn: u32) -> Nanos
    ensures { result ≡ (turn + 1) * 250000 }
{
    (u64::from(turn) + 1) * TURN_NS
}

/// Whether the turn is this processor's.
fn is_turn_of(turn: u32, cpu: CpuId) -> bool
    ensures { result ≡ true ↔ (turn % 2 ≡ cpu) }
{
    turn as usize % 2 == cpu.index()
}

impl CountedPace {
    /// Before the first turn.
    pub fn new() -> CountedPace {
        CountedPace {
            turn: Mutex::new(0),
            moved: Condvar::new(),
        }
    }
}

impl Pace for CountedPace {
    fn moment<R: Wait + Clock>(&self, rt: &R, cpu: CpuId) -> Option<Nanos>
        ensures { IfSome result (λ now. now ≤ last_moment) }
    {
        let turn = self.moved.wait_while(rt, self.turn.lock(rt), |turn| {
            *turn < TURNS && !is_turn_of(*turn, cpu)
        });
        if *turn < TURNS {
            Some(moment_of(*turn))
        } else {
            None
        }
    }

    fn stepped<R: Wait>(&self, rt: &R) {
        let mut turn = self.turn.lock(rt);
        *turn = turn.saturating_add(1);
        self.moved.notify_all();
    }

    fn stop<R: Wait>(&self, rt: &R) {
        *self.turn.lock(rt) = TURNS;
        self.moved.notify_all();
    }
}
