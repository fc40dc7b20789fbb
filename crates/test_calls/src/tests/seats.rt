//! Two seats on one thread.
ghost use Rattle.std.specs.Prelude.{◌≤◌};

use super::two_seats::TwoSeats;
use aps_core::Turn;
use aps_model::{CpuId, Done, Entry, Order, ThreadId};

/// The first entry of a processor, which picks the thread.
fn first_entry(cpu: CpuId, picked: usize) -> Entry
    requires { picked ≤ 1023 }
{
    Entry {
        from: 0,
        to: 0,
        done: Done::Nothing,
        ran: None,
        picked: Some(ThreadId::at(picked)),
        billed: None,
        starved: None,
        flagged: None,
        cpu,
        critical: false,
    }
}

#[test]
fn two_seats_take_turns_and_meet(rt: HostRuntime) {
    let (zero, one) = (CpuId::at(0), CpuId::at(1));
    let entries = [first_entry(one, 0), first_entry(zero, 1)];
    let mut seats = TwoSeats::open(&rt, rt.alloc(), Order::Free);
    assert!(rt; seats.turn_of_one(&rt) == Turn::Took(entries[0]));
    assert!(rt; seats.turn_of_one(&rt) == Turn::NotYet { cpu: zero, due: 0 });
    assert!(rt; seats.turn_of_zero(&rt) == Turn::Took(entries[1]));
    assert_eq!(rt; seats.seen_len(), (2, 1));
    assert_eq!(rt; seats.waited(), (0, 1));
    assert_eq!(rt; seats.has_grown(), (false, true));
    seats.meet();
    assert_eq!(rt; seats.seen_len(), (2, 2));
    let core = seats.close();
    assert!(rt; core.history().entries() == entries.as_slice());
}
