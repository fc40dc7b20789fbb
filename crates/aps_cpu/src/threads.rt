//! A run with one thread for each processor.
ghost use Rattle.std.specs.Prelude.{◌≡◌, ℕ, ◌+◌, ◌-◌, ◌<◌, ◌≤◌, All, [], length, slice_index_or, vec_capacity, IfSome, IsSome};
ghost use Rattle.aps_model.specs.Legal.{IsLegal};
ghost use Rattle.laws_runs.specs.Runs.{EndsNoSooner};
ghost use Rattle.aps_core.specs.Run.{IsLater, end_of_run};
ghost use Rattle.aps_lock.specs.Seats.{HasAllCpus, IsSeatOf};
ghost use Rattle.aps_cpu.specs.Driven.{IsOnFrom};
ghost use Rattle.aps_cpu.specs.Row.{HasSeenFrom, IsFresh, IsDrivable, AreSeatsInRow};

use crate::driver::drive;
use crate::gate::Gate;
use aps_core::Core;
use aps_lock::{CpuSeat, Dispatch};
use std::alloc::Global;
use std::snapshot::Snapshot;
use std::sync::Wait;
use std::thread;
use std::thread::Threads;

/// Takes the turns of all processors, each in a thread of its own, until the run has ended, and answers its core. Where
/// there is no memory for a seat each, or not every thread could be made, it ends the run all the same.
/// docs/DEFINITIONS.md has the words of the contract, under 'Runs, picks, seats and drivers'.
pub fn run_all<R: Threads + Wait + Sync, G: Gate + Sync>(
    rt: &R,
    alloc: Global,
    dispatch: Dispatch,
    mut seat: CpuSeat,
    gate: &G,
) -> Core
    requires seat { IsSeatOf dispatch seat }
    requires all { HasAllCpus seat }
    requires waited { seat.waited ≡ 0 }
    ensures setup { result.setup ≡ dispatch.setup }
    ensures later { IsLater seat.seen result }
    ensures ended { IsSome (end_of_run result) }
    ensures legal { IsLegal result.setup.scenario result.setup.order result.entries }
    ensures no_sooner { EndsNoSooner result.setup.scenario result.setup.limit result.entries }
{
    tell_cores(rt, &dispatch);
    let count = seat.last().index() + 1;
    let seat = match Vec::with_capacity(alloc, count) {
        Ok(seats) => drive_all(rt, &dispatch, seat, seats, gate),
        Err(_) => {
            drive(rt, &dispatch, &mut seat, gate);
            seat
        }
    };
    finished(dispatch.close(seat))
}

/// Tells the dispatcher how many processors of the machine there are, where that is known.
fn tell_cores<R: Threads>(rt: &R, dispatch: &Dispatch) {
    if let Ok(cores) = thread::available_parallelism(rt) {
        dispatch.set_cores(cores.get());
    }
}

/// Drives each of the seat's processors in a thread of its own, and gives the seat back. There is room for a seat each.
fn drive_all<R: Threads + Wait + Sync, G: Gate + Sync>(
    rt: &R,
    dispatch: &Dispatch,
    seat: CpuSeat,
    mut seats: Vec<CpuSeat>,
    gate: &G,
) -> CpuSeat
    requires seat { IsDrivable dispatch.now seat }
    requires room { (seats.items ≡ []) × (seat.last + 1 - seat.first ≤ vec_capacity seats) }
    ensures of { IsSeatOf dispatch.now result }
    ensures later { IsOnFrom seat result }
{
    let whole = Snapshot::of(&seat);
    split_all(dispatch, seat, &mut seats);
    drive_each(rt, dispatch, seats.as_mut_slice(), gate);
    join_all(dispatch, seats, whole)
}

/// Splits the seat into one for each processor, the last one first.
fn split_all(dispatch: &Dispatch, mut seat: CpuSeat, seats: &mut Vec<CpuSeat>)
    requires seat { IsDrivable dispatch.now seat }
    requires room { (seats.old.items ≡ []) × (seat.last + 1 - seat.first ≤ vec_capacity seats.old) }
    ensures row { AreSeatsInRow dispatch.now (IsFresh seat.seen) seats.new.items (seat.last + 1) seat.first }
    ensures some { 0 < length seats.new.items }
{
    while seat.first() < seat.last() {
        let last = seat.last();
        seats.push_reserved(dispatch.split(&mut seat, last));
    }
    seats.push_reserved(seat);
}

/// Drives each seat in a thread of its own.
fn drive_each<R: Threads + Wait + Sync, G: Gate + Sync>(
    rt: &R,
    dispatch: &Dispatch,
    seats: &mut [CpuSeat],
    gate: &G,
)
    requires some { 0 < length seats.old }
    requires ready { All (IsDrivable dispatch.now) seats.old }
    ensures { (length seats.new ≡ length seats.old)
        × ((i : ℕ) (d : _) → i < length seats.old → IsOnFrom (slice_index_or seats.old i d) (slice_index_or seats.new i d)) }
{
    let threads = seats.len();
    thread::for_each_mut(
        rt,
        seats,
        threads,
        &|_, seat: &mut CpuSeat|
            requires { IsDrivable dispatch.now seat.now }
            ensures { IsOnFrom seat.entry.now seat.exit.now }
        {
            drive(rt, dispatch, seat, gate);
        },
    );
}

/// Joins the seats again to the one that they were split from.
fn join_all(dispatch: &Dispatch, mut seats: Vec<CpuSeat>, whole: Snapshot<CpuSeat>) -> CpuSeat
    requires row { AreSeatsInRow dispatch.now (HasSeenFrom whole.value.seen) seats.items (whole.value.last + 1) whole.value.first }
    requires some { 0 < length seats.items }
    requires of { IsSeatOf dispatch.now whole.value }
    ensures of { IsSeatOf dispatch.now result }
    ensures later { IsOnFrom whole.value result }
{
    let _ = whole;
    let mut seat = seats.pop().unwrap();
    while let Some(next) = seats.pop() {
        dispatch.join(&mut seat, next);
    }
    seat
}

/// The core at the end of its run.
fn finished(mut core: Core) -> Core
    ensures later { IsLater core result }
    ensures ended { IsSome (end_of_run result) }
    ensures legal { IsLegal result.setup.scenario result.setup.order result.entries }
    ensures no_sooner { EndsNoSooner result.setup.scenario result.setup.limit result.entries }
{
    core.finish();
    core
}
