//! Bills and rotations, with sums added by hand.
ghost use Rattle.std.specs.Prelude.{◌≡◌, []};
ghost use Rattle.aps_window.specs.StandsFor.{StandsFor};
ghost use Rattle.aps_window.specs.Window.{opened};

use aps_model::{Nanos, PartitionId};
use aps_window::Window;
use std::alloc::Global;
use std::process::Abort;

fn system() -> PartitionId
    ensures { result ≡ 0 }
{
    PartitionId::at(0)
}

/// A new window of 8 ticks.
fn opened(rt: &impl Abort, alloc: Global) -> Window
    ensures same { result ≡ opened 8 }
    ensures stands { StandsFor result [] }
{
    Window::new(alloc, 8).expect(rt, "memory")
}

/// What `System` used in the window, and its critical part.
fn used(window: &Window) -> (Nanos, Nanos) {
    (window.used(system()), window.critical_used(system()))
}

fn rotate(rt: &impl Abort, window: &mut Window, times: u32) {
    for _ in 0..times {
        assert!(rt; window.tick() < 1000);
        window.rotate();
    }
}

/// A window with 600,000 ns of tick 0, and 400,000 critical ones that are billed a tick late.
fn billed(rt: &impl Abort, alloc: Global) -> Window {
    let mut window = opened(rt, alloc);
    window.bill(system(), 0, 600_000, false);
    window.rotate();
    window.bill(system(), 0, 400_000, true);
    window
}

#[test]
fn slides_and_grows(rt: HostRuntime) {
    let mut window = billed(&rt, rt.alloc());
    assert!(rt; used(&window) == (1_000_000, 400_000));
    rotate(&rt, &mut window, 6);
    assert!(rt; used(&window) == (1_000_000, 400_000));
    rotate(&rt, &mut window, 1);
    assert!(rt; window.tick() == 8);
    assert!(rt; used(&window) == (0, 0));
    window.resize(9);
    assert!(rt; used(&window) == (1_000_000, 400_000));
}

/// A window of ticks 1 to 8 in which 7 ns of tick 1 are billed, after time of tick 0, which doesn't count any more.
fn billed_late(rt: &impl Abort, alloc: Global) -> Window {
    let mut window = opened(rt, alloc);
    let system = PartitionId::at(0);
    window.advance(8);
    window.bill_at(system, 0, 600_000, false);
    window.bill_at(system, 0, 400_000, true);
    assert!(rt; used(&window) == (0, 0));
    window.bill_at(system, 1, 7, true);
    window
}

fn advance(rt: &impl Abort, window: &mut Window, ticks: u32) {
    assert!(rt; window.tick() <= 1000 && ticks <= 1000);
    window.advance(ticks);
}

#[test]
fn advances_and_bills_late(rt: HostRuntime) {
    let mut window = billed_late(&rt, rt.alloc());
    assert!(rt; used(&window) == (7, 7));
    assert!(rt; window.used(PartitionId::at(31)) == 0);
    window.resize(9);
    assert!(rt; used(&window) == (1_000_007, 400_007));
    window.resize(400);
    advance(&rt, &mut window, 391);
    assert!(rt; used(&window).0 == 1_000_007);
    advance(&rt, &mut window, 1);
    assert!(rt; used(&window).0 == 7);
    advance(&rt, &mut window, 1_000);
    assert!(rt; used(&window) == (0, 0));
}
