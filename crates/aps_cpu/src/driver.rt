//! A driver: it takes the turns of one seat until the run has ended.
ghost use Rattle.std.specs.Prelude.{◌≡◌, ◌+◌, ◌<◌, if◌then◌else◌, nat_lt};
ghost use Rattle.aps_model.specs.Limits.{IsIn};
ghost use Rattle.aps_lock.specs.Seats.{IsSeatOf};
ghost use Rattle.aps_cpu.specs.Driven.{IsDriven, IsOnFrom};

use crate::gate::Gate;
use crate::patience::Patience;
use aps_core::Turn;
use aps_lock::{CpuSeat, Dispatch};
use aps_model::{CpuId, End, Nanos};
use std::sync::Wait;
use std::thread;

/// How a driver ended.
#[derive(Clone, Copy, Debug, PartialEq, Eq)]
pub enum Driven {
    /// Its last turn found that the run has ended.
    Ended(End),
    /// It gave up: its last turn, like 999,999 before it, answered that a processor of another seat has the turn. This
    /// is that processor, and when it is due (ns).
    Waited { cpu: CpuId, due: Nanos },
}

/// After so many turns in a row that named a processor of another seat a driver gives up.
const MOST_WAITED: u64 = 1_000_000;

/// After so many turns in vain in a row a driver lets some time pass before its next ones: those whose turn it is have no
/// driver at hand, perhaps because its thread is still being made.
const FEW_WAITED: u64 = 64;

/// After so many it takes its turns without a wait, and alone: others that have come so far wait until it has given up.
const SHORT_WAIT: u64 = 320;

/// From then on it yields after one turn of so many; no oftener, since where all of the machine's processors are busy each
/// yield can take as long as a time slice.
const TURNS_A_YIELD: u64 = 16_384;

/// Takes turns of the seat, one processor after the other, and enters the gate before each, until the run has ended, or
/// 1,000,000 turns in a row answered that a processor of another seat has the turn. What the seat has waited must be 0 at
/// the start, so that these are turns of this call. docs/DEFINITIONS.md has the words of the contract, under 'Runs,
/// picks, seats and drivers'.
pub fn drive<R: Wait, G: Gate>(rt: &R, dispatch: &Dispatch, seat: &mut CpuSeat, gate: &G) -> Driven
    requires seat { IsSeatOf dispatch.now seat.old }
    requires waited { seat.old.waited ≡ 0 }
    ensures seat { IsOnFrom seat.old seat.new }
    ensures driven { IsDriven seat.old result seat.new }
{
    let (first, last) = (seat.first(), seat.last());
    let mut cpu = first;
    let mut patience = Patience::new();
    dispatch.set_at_hand(seat, true);
    for _ in rt.forever() {
        wait(rt, dispatch, seat, gate, &mut patience);
        enter(rt, dispatch, seat, gate, cpu);
        match dispatch.turn(rt, seat, cpu) {
            Turn::Ended(end) => {
                dispatch.leave(seat);
                return Driven::Ended(end);
            }
            Turn::NotYet { cpu, due } => {
                if seat.waited() >= MOST_WAITED {
                    dispatch.leave(seat);
                    return Driven::Waited { cpu, due };
                }
            }
            Turn::Took(_) => {}
        }
        cpu = following(cpu, first, last);
    }
    unreachable!()
}

/// Waits for the seat's turn. Where drivers share the processors of the machine it yields for a while first.
fn wait<R: Wait, G: Gate>(
    rt: &R,
    dispatch: &Dispatch,
    seat: &CpuSeat,
    gate: &G,
    patience: &mut Patience,
) {
    let waited = seat.waited();
    if waited > SHORT_WAIT {
        wait_in_vain(rt, dispatch, seat, gate, waited);
    } else if waited > FEW_WAITED {
        gate.pause();
    } else if !(dispatch.is_crowded() && patience.yields_to_turn(dispatch, seat, gate)) {
        dispatch.await_turn(rt, seat);
    }
}

/// Waits in a long row of turns in vain, while another driver is in one too. Where that one could be held by the gate it
/// doesn't.
fn wait_in_vain<R: Wait, G: Gate>(
    rt: &R,
    dispatch: &Dispatch,
    seat: &CpuSeat,
    gate: &G,
    waited: u64,
) {
    if gate.is_open() {
        dispatch.await_vain(rt, seat);
    }
    if waited % TURNS_A_YIELD == 0 {
        thread::yield_now();
    }
}

/// Enters the gate. The driver is not at hand meanwhile, unless the gate is open.
fn enter<R: Wait, G: Gate>(rt: &R, dispatch: &Dispatch, seat: &CpuSeat, gate: &G, cpu: CpuId) {
    if gate.is_open() {
        return gate.enter(rt, seat, cpu);
    }
    dispatch.set_at_hand(seat, false);
    gate.enter(rt, seat, cpu);
    dispatch.set_at_hand(seat, true);
}

/// The processor after this one, in the round from the first to the last.
fn following(cpu: CpuId, first: CpuId, last: CpuId) -> CpuId
    requires { IsIn first last cpu }
    ensures same { result ≡ (if nat_lt cpu last then cpu + 1 else first) }
    ensures within { IsIn first last result }
{
    if cpu < last {
        CpuId::at(cpu.index() + 1)
    } else {
        first
    }
}
