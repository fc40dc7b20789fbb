//! The workers of a pool, and the pieces of work that they do.
ghost use Rattle.std.specs.Prelude.{◌≡◌, ◌++◌};
ghost use Rattle.aps_pool.specs.Pool.{IsAsked};

use crate::pace::Pace;
use crate::pool::Pool;
use crate::slot::{OfLive, Slot};
use aps_live::{Live, LiveTurn};
use aps_model::{Entry, ThreadId};
use std::sync::Wait;
use std::time::Clock;

/// How long a piece of work is.
const ROUNDS: u32 = 20_000;

/// A worker: which thread of the scenario it is, how many pieces of work it did and told, and what it worked out.
#[derive(Clone, Copy)]
pub struct Worker {
    pub thread: ThreadId,
    pub pieces: u64,
    pub digest: u64,
}

impl Worker {
    /// One that did nothing yet.
    pub fn new(thread: ThreadId) -> Worker
        ensures { result ≡ record { thread = thread; pieces = 0; digest = 0 } }
    {
        Worker {
            thread,
            pieces: 0,
            digest: 0,
        }
    }

    /// Does one piece of work.
    fn do_piece(&mut self) {
        for _ in 0..ROUNDS {
            let mixed = self.digest ^ (self.digest >> 29);
            self.digest = mixed.wrapping_mul(0x9e37_79b9_7f4a_7c15).wrapping_add(1);
        }
    }

    /// Works while the worker has a slot, a piece at a time, and waits while it has none, until the run is over.
    pub fn work<R: Wait + Clock, P: OfLive, C: Pace>(
        &mut self,
        rt: &R,
        live: &Live,
        pool: &Pool<P>,
        pace: &C,
    )
        requires { live.now ≡ P.live }
    {
        for _ in rt.forever() {
            let Some(mut slot) = pool.take(rt, self.thread) else {
                return;
            };
            self.do_piece();
            match ask(rt, live, pace, &mut slot) {
                Some(e) => {
                    self.pieces = self.pieces.saturating_add(1);
                    pool.hand_on(rt, slot, e.picked);
                }
                None => pool.hand_on(rt, slot, None),
            }
        }
    }
}

/// Tells the live scheduler that a piece of work is done, and asks who may go on: the entry says it. There is none where the
/// run is over, or the history is full. Where another processor has told a later moment meanwhile, it asks again.
fn ask<R: Wait + Clock, P: OfLive, C: Pace>(
    rt: &R,
    live: &Live,
    pace: &C,
    slot: &mut Slot<P>,
) -> Option<Entry>
    requires { live.now ≡ P.live }
    ensures { IsAsked slot.old.seat result slot.new.seat }
{
    for _ in rt.forever() {
        let Some(now) = pace.moment(rt, slot.cpu()) else {
            return None;
        };
        let turn = slot.step(rt, live, now);
        pace.stepped(rt);
        match turn {
            LiveTurn::Took(e) => return Some(e),
            LiveTurn::Back { .. } => {}
            LiveTurn::Full => return None,
        }
    }
    unreachable!()
}
