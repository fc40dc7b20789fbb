//! Sleepers that wake as by hand.
ghost use Rattle.std.specs.Prelude.{◌≡◌, ◌≤◌};

use aps_model::{Nanos, ThreadId};
use aps_timer::Timer;
use std::alloc::Global;
use std::process::Abort;

/// The numbers of the threads that are due, one after another, up to four.
fn wake(timer: &mut Timer, now: Nanos) -> [Option<ThreadId>; 4] {
    let mut due = [None; 4];
    for i in 0..4 {
        due[i] = timer.due_at(now);
    }
    due
}

fn thread(x: usize) -> ThreadId
    requires { x ≤ 1023 }
    ensures { result ≡ x }
{
    ThreadId::at(x)
}

/// Three sleepers, of which the first two are due at the same moment.
fn three_sleepers(rt: &impl Abort, alloc: Global) -> Timer {
    let mut timer = Timer::new(alloc, 5).expect(rt, "memory");
    timer.sleep(thread(3), 1_000_001);
    timer.sleep(thread(1), 500);
    timer.sleep(thread(2), 500);
    timer
}

#[test]
fn sleepers_wake_by_moment_and_then_by_number(rt: HostRuntime) {
    let mut timer = three_sleepers(&rt, rt.alloc());
    let (first, second, third) = (Some(thread(1)), Some(thread(2)), Some(thread(3)));
    assert!(rt; wake(&mut timer, 1_000_000) == [first, second, None, None]);
    assert!(rt; wake(&mut timer, 2_000_000) == [third, None, None, None]);
}

#[test]
fn an_earlier_sleeper_than_the_moment_last_asked_is_due(rt: HostRuntime) {
    let mut timer = Timer::new(rt.alloc(), 3).expect(&rt, "memory");
    timer.sleep(thread(0), 7_000_000);
    assert!(rt; timer.due_at(6_999_999) == None);
    timer.sleep(thread(2), 0);
    assert!(rt; timer.due_at(0) == Some(thread(2)));
    assert!(rt; timer.due_at(7_000_000) == Some(thread(0)));
    timer.sleep(thread(2), u64::MAX);
    assert!(rt; timer.due_at(u64::MAX - 1) == None);
    assert!(rt; timer.due_at(u64::MAX) == Some(thread(2)));
}

fn set(timer: &mut Timer, x: usize, until: Option<Nanos>)
    requires { x ≤ 1023 }
{
    timer.set(thread(x), until);
}

#[test]
fn a_place_is_set_whatever_it_had(rt: HostRuntime) {
    let mut timer = Timer::new(rt.alloc(), 3).expect(&rt, "memory");
    for (x, until) in [
        (1, Some(500)),
        (2, Some(400)),
        (1, Some(300)),
        (3, Some(100)),
    ] {
        set(&mut timer, x, until);
    }
    assert!(rt; timer.until(thread(1)) == Some(300));
    assert!(rt; timer.until(thread(0)) == None);
    assert!(rt; timer.until(thread(3)) == None);
    set(&mut timer, 2, None);
    set(&mut timer, 0, None);
    assert!(rt; wake(&mut timer, 1_000) == [Some(thread(1)), None, None, None]);
    assert!(rt; timer.until(thread(1)) == None);
}

#[test]
fn nobody_sleeps_where_there_are_no_threads(rt: HostRuntime) {
    let mut timer = Timer::new(rt.alloc(), 0).expect(&rt, "memory");
    assert!(rt; timer.due_at(u64::MAX) == None);
}
