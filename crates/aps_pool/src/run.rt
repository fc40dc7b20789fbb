//! A run of the pool from its start to its history.
ghost use Rattle.std.specs.Prelude.{◌≡◌, IfSome};
ghost use Rattle.aps_live.specs.Seats.{HasAllCpus, IsSeatOf};
ghost use Rattle.aps_pool.specs.Pool.{IsMadeFor};

use crate::error::PoolError;
use crate::pace::Pace;
use crate::pool::{Home, Pool, WORKERS};
use crate::slot::{OfLive, Slot};
use crate::start::{Started, start};
use crate::work::Worker;
use aps_live::{Live, LiveHistory, LiveSeat};
use aps_model::ThreadId;
use std::alloc::Global;
use std::marker::Brand;
use std::sync::Wait;
use std::thread;
use std::thread::Threads;
use std::time::Clock;

/// What a run leaves: the history, and what each worker says that it did.
#[derive(Drop)]
pub struct Outcome {
    pub history: LiveHistory,
    pub workers: [Worker; WORKERS],
}

/// Runs the pool until the pace says that it is over.
pub fn run<R: Threads + Wait + Clock + Sync, C: Pace + Sync>(
    rt: &R,
    alloc: Global,
    pace: &C,
) -> Result<Outcome, PoolError> {
    let Started {
        live,
        zero,
        one,
        picked,
    } = start(rt, alloc)?;
    let mut workers = [
        Worker::new(ThreadId::at(0)),
        Worker::new(ThreadId::at(1)),
        Worker::new(ThreadId::at(2)),
        Worker::new(ThreadId::at(3)),
    ];
    match share_out::<Brand, R, C>(rt, &live, zero, one, picked, pace, &mut workers) {
        Some(seat) => Ok(Outcome {
            history: live.close(seat),
            workers,
        }),
        None => Err(PoolError::NoThreads),
    }
}

/// Hands the two seats to the workers that were picked, has all work, and joins the seats again. There is none where not
/// every worker had a thread.
fn share_out<P: OfLive + Send + Sync, R: Threads + Wait + Clock + Sync, C: Pace + Sync>(
    rt: &R,
    live: &Live,
    zero: LiveSeat,
    one: LiveSeat,
    picked: [Option<ThreadId>; 2],
    pace: &C,
    workers: &mut [Worker; WORKERS],
) -> Option<LiveSeat>
    requires live { (live.now ≡ P.live) × IsMadeFor live.now }
    requires of { IsSeatOf live.now zero × IsSeatOf live.now one }
    requires zero { (zero.first ≡ 0) × (zero.last ≡ 0) }
    requires one { (one.first ≡ 1) × (one.last ≡ 1) }
    ensures { IfSome result (λ seat. IsSeatOf live.now seat × HasAllCpus seat) }
{
    let pool: Pool<P> = Pool::new();
    pool.hand_on(rt, Slot::new(zero), picked[0]);
    pool.hand_on(rt, Slot::new(one), picked[1]);
    work_all(rt, live, &pool, pace, workers);
    let Home { zero, one } = pool.into_home();
    joined(live, zero?, one?)
}

/// The seat of both processors.
fn joined<P: OfLive>(live: &Live, zero: Slot<P>, one: Slot<P>) -> Option<LiveSeat>
    requires live { (live.now ≡ P.live) × IsMadeFor live.now }
    ensures { IfSome result (λ seat. IsSeatOf live.now seat × HasAllCpus seat) }
{
    if zero.cpu().index() != 0 || one.cpu().index() != 1 {
        return None;
    }
    let mut seat = zero.into_seat();
    live.join(&mut seat, one.into_seat());
    Some(seat)
}

/// Has all workers work, each in a thread of its own, and waits until they are done. Where a thread can't be made nobody
/// works on.
fn work_all<R: Threads + Wait + Clock + Sync, P: OfLive + Send + Sync, C: Pace + Sync>(
    rt: &R,
    live: &Live,
    pool: &Pool<P>,
    pace: &C,
    workers: &mut [Worker; WORKERS],
)
    requires { live.now ≡ P.live }
{
    thread::scope(
        thread::scope_env(),
        rt,
        |scope|
            requires { live.now ≡ P.live }
        {
            for worker in workers.iter_mut() {
                let started = scope.spawn(
                    move ||
                        requires { live.now ≡ P.live }
                    { worker.work(rt, live, pool, pace) },
                );
                if started.is_err() {
                    pace.stop(rt);
                    pool.close(rt);
                }
            }
        },
    );
}
