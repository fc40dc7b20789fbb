//! Drivers, alone and together.
use super::two_processors::opened;
use super::two_seats::TwoSeats;
use aps_cpu::{Driven, Gate, MeetGate, OpenGate, drive, run_all};
use aps_lock::CpuSeat;
use aps_model::{CpuId, End, Order};
use std::alloc::Global;
use std::process::Abort;
use std::sync::Wait;
use std::sync::atomic::AtomicU64;
use std::sync::atomic::Ordering::SeqCst;
use std::thread::Threads;

/// A gate that counts its entries.
#[derive(Drop)]
struct CountGate {
    entries: AtomicU64,
}

impl Gate for CountGate {
    fn enter<R: Wait>(&self, _rt: &R, _seat: &CpuSeat, _cpu: CpuId) {
        self.entries.fetch_add(1, SeqCst);
    }
}

#[test]
fn a_driver_alone_gives_up(rt: HostRuntime) {
    let mut seats = TwoSeats::open(&rt, rt.alloc(), Order::Free);
    let gate = CountGate {
        entries: AtomicU64::new(0),
    };
    let cpu = CpuId::at(0);
    assert!(rt; seats.drive_one(&rt, &gate) == Driven::Waited { cpu, due: 0 });
    assert_eq!(rt; gate.entries.load(SeqCst), 1_000_001);
    assert_eq!(rt; seats.seen_len(), (0, 1));
}

/// What a driver of both processors answers in fixed order, and how many entries its seat has seen then.
fn driven_alone<R: Abort + Wait>(rt: &R, alloc: Global) -> (Driven, u64) {
    let (dispatch, mut seat) = opened(rt, alloc, Order::Fixed);
    let driven = drive(rt, &dispatch, &mut seat, &OpenGate);
    (driven, seat.seen_len())
}

#[test]
fn one_seat_ends_a_run_in_fixed_order(rt: HostRuntime) {
    let (driven, seen_len) = driven_alone(&rt, rt.alloc());
    assert_eq!(rt; driven, Driven::Ended(End::Horizon));
    assert_eq!(rt; seen_len, 23);
}

/// How the run ends that a thread for each processor makes, each of which enters the gate.
fn end_of_threads<R: Abort + Threads + Wait + Sync>(
    rt: &R,
    alloc: Global,
    gate: &MeetGate,
) -> Option<End> {
    let (dispatch, seat) = opened(rt, alloc, Order::Free);
    run_all(rt, alloc, dispatch, seat, gate).ended()
}

#[test]
fn two_threads_meet(rt: HostRuntime) {
    let gate = MeetGate::new();
    let end = end_of_threads(&rt, rt.alloc(), &gate);
    assert!(rt; gate.met());
    assert_eq!(rt; end, Some(End::Horizon));
}
