//! Moments by the machine's clock.
ghost use Rattle.std.specs.Prelude.{◌≤◌, IfSome};
ghost use Rattle.aps_model.specs.Limits.{last_moment};

use crate::pace::{LAST_MOMENT, Pace};
use aps_model::{CpuId, Nanos};
use std::io;
use std::sync::Wait;
use std::sync::atomic::AtomicBool;
use std::sync::atomic::Ordering::SeqCst;
use std::time::{Clock, Duration, Instant};

/// How long a run takes (ns).
const RUN_NS: Nanos = 500_000_000;

/// The moments of the machine's clock, from the start of the run.
#[derive(Drop)]
pub struct ClockPace {
    start: Instant,
    stopped: AtomicBool,
}

impl ClockPace {
    /// A run that begins now.
    pub fn start<R: Clock>(rt: &R) -> io::Result<ClockPace> {
        Ok(ClockPace {
            start: Instant::now(rt)?,
            stopped: AtomicBool::new(false),
        })
    }
}

/// So much time in ns, or the last moment that the live scheduler takes where it is more.
fn nanos_of(time: Duration) -> Nanos
    ensures { result ≤ last_moment }
{
    match u64::try_from(time.as_nanos()) {
        Ok(ns) => ns.min(LAST_MOMENT),
        Err(_) => LAST_MOMENT,
    }
}

impl Pace for ClockPace {
    /// A clock that can't be read ends the run.
    fn moment<R: Wait + Clock>(&self, rt: &R, _cpu: CpuId) -> Option<Nanos>
        ensures { IfSome result (λ now. now ≤ last_moment) }
    {
        match self.start.elapsed(rt) {
            Ok(time) => {
                let now = nanos_of(time);
                if now < RUN_NS && !self.stopped.load(SeqCst) {
                    Some(now)
                } else {
                    None
                }
            }
            Err(_) => None,
        }
    }

    fn stepped<R: Wait>(&self, _rt: &R) {}

    fn stop<R: Wait>(&self, _rt: &R) {
        self.stopped.store(true, SeqCst);
    }
}
