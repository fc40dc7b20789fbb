//! A driver's wait ends where nobody wakes it.
use super::two_seats::TwoSeats;
use aps_model::Order;

#[test]
fn a_wait_for_a_turn_ends_though_nobody_rings(rt: HostRuntime) {
    let seats = TwoSeats::open(&rt, rt.alloc(), Order::Fixed);
    seats.come_to_hand();
    seats.await_turn_of_one(&rt);
    assert_eq!(rt; seats.seen_len(), (0, 0));
}

#[test]
fn a_wait_for_another_in_vain_ends_though_nobody_rings(rt: HostRuntime) {
    let mut seats = TwoSeats::open(&rt, rt.alloc(), Order::Fixed);
    let _ = seats.turn_of_zero(&rt);
    seats.await_vain_of_zero(&rt);
    let _ = seats.turn_of_one(&rt);
    seats.await_vain_of_one(&rt);
    assert_eq!(rt; seats.seen_len(), (1, 2));
}
