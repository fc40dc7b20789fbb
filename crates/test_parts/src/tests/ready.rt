//! Small queues, by hand.
ghost use Rattle.std.specs.Prelude.{◌≡◌, ◌≤◌, ◌∷◌, [], All, IfOk, Some};
ghost use Rattle.aps_ready.specs.Small.{IsSmall};

use aps_model::{Facts, Free, PartFacts, PartitionId, ThreadId};
use aps_ready::{Drawn, Gates, Ready};
use std::alloc::Global;
use std::process::Abort;

const IN_BUDGET: bool = true;

const OVER: bool = false;

const CRITICAL: bool = true;

const PLAIN: bool = false;

/// A thread's inherited values.
fn facts(partition: usize, priority: u8, critical: bool) -> Facts
    requires { partition ≤ 31 }
{
    Facts {
        partition: PartitionId::at(partition),
        priority,
        critical,
    }
}

/// A partition with standing, shut where it is out of budget.
fn part(funded: bool, used: u64, budget: u16) -> PartFacts
    requires used { used ≤ 1000 }
    requires budget { budget ≤ 1000 }
    ensures { IsSmall result }
{
    PartFacts {
        funded,
        standing: true,
        shut: !funded,
        used,
        budget,
    }
}

/// A partition that isn't shut and has no standing.
fn open_part(funded: bool, used: u64, budget: u16) -> PartFacts
    requires used { used ≤ 1000 }
    requires budget { budget ≤ 1000 }
    ensures { IsSmall result }
{
    PartFacts {
        funded,
        standing: false,
        shut: false,
        used,
        budget,
    }
}

/// Two partitions.
fn both(a: PartFacts, b: PartFacts) -> [PartFacts; 2]
    requires a { IsSmall a }
    requires b { IsSmall b }
    ensures { All IsSmall result }
{
    [a, b]
}

/// Two ready threads; thread 1 has the smaller stamp.
fn two(rt: &impl Abort, alloc: Global, a: Facts, b: Facts) -> Ready
    ensures { result ≡ Some (record { thread = 0; facts = a; stamp = 7 })
        ∷ Some (record { thread = 1; facts = b; stamp = 3 }) ∷ [] }
{
    let mut ready = Ready::new(alloc, 2).expect(rt, "memory");
    ready.put(ThreadId::at(0), a, 7);
    ready.put(ThreadId::at(1), b, 3);
    ready
}

/// The number of the thread that is best.
fn best(ready: &Ready, parts: &[PartFacts; 2], free: Free) -> Option<usize>
    requires { All IsSmall parts.now }
{
    ready.best(parts, free).map(|x| x.index())
}

/// The partition that is missing.
fn missing(ready: &Ready, parts: &[PartFacts; 2]) -> Option<PartitionId> {
    ready.missing(parts)
}

/// Two partitions in budget, that used as much.
fn alike() -> [PartFacts; 2]
    ensures { All IsSmall result }
{
    both(part(IN_BUDGET, 10, 50), part(IN_BUDGET, 10, 50))
}

#[test]
fn between_equals_the_smaller_stamp_goes_first(rt: HostRuntime) {
    let same = two(&rt, rt.alloc(), facts(0, 10, PLAIN), facts(0, 10, PLAIN));
    assert!(rt; best(&same, &alike(), Free::Priority) == Some(1));
    let mut apart = two(&rt, rt.alloc(), facts(0, 10, PLAIN), facts(1, 10, PLAIN));
    assert!(rt; best(&apart, &alike(), Free::Priority) == Some(1));
    apart.take(ThreadId::at(1));
    assert!(rt; best(&apart, &alike(), Free::Priority) == Some(0));
}

#[test]
fn class_comes_before_priority(rt: HostRuntime) {
    let parts = both(open_part(OVER, 60, 50), part(IN_BUDGET, 10, 50));
    let ready = two(&rt, rt.alloc(), facts(0, 255, PLAIN), facts(1, 1, PLAIN));
    assert!(rt; best(&ready, &parts, Free::Priority) == Some(1));
    assert!(rt; best(&ready, &parts, Free::Ratio) == Some(1));
}

#[test]
fn a_critical_thread_runs_past_its_maximum(rt: HostRuntime) {
    let parts = both(part(IN_BUDGET, 10, 50), part(OVER, 60, 50));
    let mut ready = two(&rt, rt.alloc(), facts(0, 10, PLAIN), facts(1, 11, PLAIN));
    assert!(rt; best(&ready, &parts, Free::Priority) == Some(0));
    assert!(rt; missing(&ready, &parts) == Some(PartitionId::at(1)));
    ready.change(ThreadId::at(1), facts(1, 11, CRITICAL));
    assert!(rt; best(&ready, &parts, Free::Priority) == Some(1));
    assert!(rt; missing(&ready, &parts) == None);
}

#[test]
fn free_time_goes_by_priority_or_by_ratio(rt: HostRuntime) {
    let parts = both(open_part(OVER, 30, 30), open_part(OVER, 21, 20));
    let ready = two(&rt, rt.alloc(), facts(0, 1, PLAIN), facts(1, 9, PLAIN));
    assert!(rt; best(&ready, &parts, Free::Ratio) == Some(0));
    assert!(rt; best(&ready, &parts, Free::Priority) == Some(1));
}

#[test]
fn nobody_is_in_a_queue_without_threads(rt: HostRuntime) {
    let parts = both(part(IN_BUDGET, 0, 0), part(IN_BUDGET, 0, 50));
    let ready = Ready::new(rt.alloc(), 0).expect(&rt, "memory");
    assert!(rt; best(&ready, &parts, Free::Priority) == None);
    assert!(rt; missing(&ready, &parts) == Some(PartitionId::at(1)));
}

#[test]
fn a_queue_may_have_more_places_than_there_are_threads(rt: HostRuntime) {
    let parts = both(part(IN_BUDGET, 0, 0), part(IN_BUDGET, 0, 50));
    let ready = Ready::new(rt.alloc(), u16::MAX).expect(&rt, "memory");
    assert!(rt; best(&ready, &parts, Free::Priority) == None);
}

#[test]
fn gates_are_set_one_at_a_time(rt: HostRuntime) {
    let parts = both(part(OVER, 60, 50), open_part(OVER, 60, 50));
    let mut gates = Gates::of(&parts);
    gates.set(PartitionId::at(0), &part(IN_BUDGET, 10, 50));
    let later = both(part(IN_BUDGET, 10, 50), open_part(OVER, 60, 50));
    assert!(rt; gates == Gates::of(&later));
}

fn drawn(ready: &mut Ready) -> Drawn {
    let parts = alike();
    ready.draw(Gates::of(&parts), &parts, Free::Priority)
}

#[test]
fn a_drawn_thread_is_out_and_the_next_is_left(rt: HostRuntime) {
    let mut ready = two(&rt, rt.alloc(), facts(0, 10, PLAIN), facts(1, 10, PLAIN));
    let last_in = ready.at(ThreadId::at(1));
    let other = ready.at(ThreadId::at(0));
    let first = drawn(&mut ready);
    assert!(rt; first.picked == last_in);
    assert!(rt; first.left == other);
    assert!(rt; ready.at(ThreadId::at(1)) == None);
    let second = drawn(&mut ready);
    assert!(rt; second.picked == other);
    assert!(rt; second.left == None);
}
