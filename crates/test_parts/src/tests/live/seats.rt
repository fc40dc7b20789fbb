//! Two seats on one thread.
use super::two_seats::TwoSeats;
use aps_live::{LiveEvent, LiveTurn};
use aps_model::{CpuId, Done, Entry, Nanos, PartitionId, ThreadId};

/// The first entry of a processor, up to this moment (ns), which picks the thread where nobody of this partition is awake.
fn first_entry(cpu: CpuId, to: Nanos, picked: ThreadId, starved: PartitionId) -> Entry {
    Entry {
        from: 0,
        to,
        done: Done::Nothing,
        ran: None,
        picked: Some(picked),
        billed: None,
        starved: Some(starved),
        flagged: None,
        cpu,
        critical: false,
    }
}

/// Processor 1 picks `s0`, so that processor 0 finds `a0` alone, at a moment that isn't before the one that processor 1 told.
#[test]
fn two_seats_take_turns_and_are_joined(rt: HostRuntime) {
    let (s0, a0) = (ThreadId::at(0), ThreadId::at(2));
    let entries = [
        first_entry(CpuId::at(1), 7, s0, PartitionId::at(1)),
        first_entry(CpuId::at(0), 7, a0, PartitionId::at(0)),
    ];
    let events = [LiveEvent::Wake(s0), LiveEvent::Wake(a0)];
    let mut seats = TwoSeats::open(&rt, rt.alloc());
    let back = LiveTurn::Back { now_seen: 7 };
    assert!(rt; seats.wake_by_one(&rt, 7, 0) == LiveTurn::Took(entries[0]));
    assert!(rt; seats.wake_by_zero(&rt, 6, 2) == back);
    assert!(rt; seats.wake_by_zero(&rt, 7, 2) == LiveTurn::Took(entries[1]));
    assert!(rt; seats.seen_len() == (2, 1));
    let history = seats.close();
    assert!(rt; history.entries() == entries.as_slice());
    assert!(rt; history.events() == events.as_slice());
}
