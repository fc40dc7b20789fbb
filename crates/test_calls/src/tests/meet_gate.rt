//! What a gate tells of the entries of two processors. That it is met by the drivers of a run is tested beside this.
use aps_cpu::MeetGate;
use std::thread::join;

#[test]
fn a_new_gate_is_neither_met_nor_given_up(rt: HostRuntime) {
    let gate = MeetGate::new();
    assert!(rt; !gate.met());
    assert!(rt; !gate.gave_up());
}

#[test]
fn a_hold_of_one_processor_alone_gives_up(rt: HostRuntime) {
    let zero = MeetGate::with_looks(10);
    zero.enter_0();
    assert!(rt; zero.gave_up());
    assert!(rt; !zero.met());
    let one = MeetGate::with_looks(10);
    one.enter_1(0);
    assert!(rt; !one.gave_up());
    one.enter_1(1);
    assert!(rt; one.gave_up());
    assert!(rt; !one.met());
}

#[test]
fn a_gate_is_met_where_more_was_seen(rt: HostRuntime) {
    for (seen, met) in [(6, true), (5, false)] {
        let gate = MeetGate::new();
        join(&rt, || gate.enter_0(), || enter_twice(&gate, 5, seen));
        assert!(rt; !gate.gave_up());
        assert_eq!(rt; gate.met(), met);
    }
}

/// Enters as processor 1, whose seat has seen so many entries at either time.
fn enter_twice(gate: &MeetGate, first: u64, second: u64) {
    gate.enter_1(first);
    gate.enter_1(second);
}
