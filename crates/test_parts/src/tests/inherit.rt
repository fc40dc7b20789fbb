//! Chains of three threads, with values that were worked out by hand.
ghost use Rattle.std.specs.Prelude.{◌≡◌, [], ◌≤◌};

use aps_inherit::Inherit;
use aps_model::{ChannelId, Facts, PartitionId, ThreadId};
use aps_scenario::scenario_of;
use std::alloc::Global;
use std::process::Abort;

/// Threads 0, 1 and 2 in `System`, of priority 10, 11 and 12, and two channels.
const THREE_THREADS: &str = r#"version = 1
cpus = 1
window = 10
ticks = 2
channel = [{name = "c"}, {name = "d"}]
thread = [
  {name = "x", priority = 10, program = ["run forever"]},
  {name = "y", priority = 11, program = ["run forever"]},
  {name = "z", priority = 12, program = ["run forever"]},
]
"#;

fn begun(rt: &impl Abort, alloc: Global) -> Inherit
    ensures { result.triples ≡ [] }
{
    let scenario = scenario_of(alloc, THREE_THREADS.as_bytes()).expect(rt, "a scenario");
    Inherit::new(alloc, &scenario).expect(rt, "memory")
}

/// Thread 2 serves thread 1, which serves thread 0, each by channel 0.
fn chain(rt: &impl Abort, alloc: Global) -> Inherit {
    let mut inherit = begun(rt, alloc);
    inherit.serve(ThreadId::at(1), ThreadId::at(0), ChannelId::at(0));
    inherit.serve(ThreadId::at(2), ThreadId::at(1), ChannelId::at(0));
    inherit
}

fn facts(priority: u8) -> Facts {
    Facts {
        partition: PartitionId::at(0),
        priority,
        critical: false,
    }
}

/// What the thread inherits.
fn of(inherit: &Inherit, x: usize) -> Facts
    requires { x ≤ 2 }
{
    inherit.of(ThreadId::at(x))
}

/// Thread 2 serves no longer.
fn end(inherit: &mut Inherit) {
    inherit.end(ThreadId::at(2));
}

fn mark(inherit: &mut Inherit) {
    inherit.mark(ThreadId::at(0), true);
}

#[test]
fn a_mark_travels_up_the_chain(rt: HostRuntime) {
    let mut inherit = chain(&rt, rt.alloc());
    mark(&mut inherit);
    assert!(rt; of(&inherit, 2).critical);
    end(&mut inherit);
    assert!(rt; of(&inherit, 2) == facts(12));
    assert!(rt; of(&inherit, 1).critical);
}

fn raise(inherit: &mut Inherit, channel: usize, top: Option<u8>)
    requires { channel ≤ 1 }
{
    inherit.raise(ChannelId::at(channel), top);
}

/// Whether the three threads inherit these priorities, and nothing else.
fn inherit_these(inherit: &Inherit, priorities: [u8; 3]) -> bool {
    of(inherit, 0) == facts(priorities[0])
        && of(inherit, 1) == facts(priorities[1])
        && of(inherit, 2) == facts(priorities[2])
}

#[test]
fn a_waiting_message_raises_the_priority_alone(rt: HostRuntime) {
    let mut inherit = chain(&rt, rt.alloc());
    raise(&mut inherit, 1, Some(30));
    assert!(rt; inherit_these(&inherit, [10, 10, 10]));
    raise(&mut inherit, 0, Some(20));
    assert!(rt; inherit_these(&inherit, [10, 20, 20]));
    raise(&mut inherit, 0, None);
    assert!(rt; inherit_these(&inherit, [10, 10, 10]));
}

/// The chain, where thread 0 joined another partition, and threads 0 and 2 have other priorities of their own.
fn changed(rt: &impl Abort, alloc: Global) -> Inherit {
    let mut inherit = chain(rt, alloc);
    inherit.join(ThreadId::at(0), PartitionId::at(1));
    inherit.set_priority(ThreadId::at(0), 40);
    inherit.set_priority(ThreadId::at(2), 50);
    inherit
}

/// The server and the client of thread 1.
fn beside(inherit: &Inherit) -> (Option<ThreadId>, Option<ThreadId>) {
    let x = ThreadId::at(1);
    (inherit.server_of(x), inherit.client_of(x))
}

#[test]
fn own_values_come_back(rt: HostRuntime) {
    let mut inherit = changed(&rt, rt.alloc());
    let last = of(&inherit, 2);
    assert!(rt; last.partition == PartitionId::at(1) && last.priority == 40);
    let (server, client) = (ThreadId::at(2), ThreadId::at(0));
    assert!(rt; beside(&inherit) == (Some(server), Some(client)));
    end(&mut inherit);
    assert!(rt; inherit.own(server) == facts(50));
    assert!(rt; of(&inherit, 2) == facts(50));
}
