//! Threads that go through their programs as by hand.
ghost use Rattle.std.specs.Prelude.{◌≤◌};

use aps_model::{ChannelId, CpuId, Nanos, Op, State, ThreadId};
use aps_scenario::scenario_of;
use aps_tasks::Tasks;
use std::alloc::Global;
use std::process::Abort;

/// Thread 0, `turner`, is round-robin; thread 1, `sleeper`, sleeps in between.
const TURNER_AND_SLEEPER: &str = r#"version = 1
cpus = 1
window = 10
ticks = 10
thread = [
  {name = "turner", policy = "rr", program = ["run 4000000", "yield", "repeat"]},
  {name = "sleeper", program = ["run 400", "sleep 500", "exit"]},
]
"#;

fn begun(rt: &impl Abort, alloc: Global) -> Tasks {
    let scenario = scenario_of(alloc, TURNER_AND_SLEEPER.as_bytes()).expect(rt, "a scenario");
    Tasks::new(alloc, &scenario).expect(rt, "memory")
}

/// The thread enters its next operation where it has one.
fn advance(tasks: &mut Tasks, x: ThreadId, now: Nanos) -> Option<Nanos>
    requires { now ≤ 1000000 }
{
    match tasks.op(x) {
        Op::Forever | Op::Exit => None,
        _ => tasks.advance(x, now),
    }
}

fn state_of(tasks: &Tasks, x: ThreadId) -> State {
    tasks.state(x)
}

#[test]
fn each_thread_begins_its_program(rt: HostRuntime) {
    let tasks = begun(&rt, rt.alloc());
    let turner = ThreadId::at(0);
    let sleeper = ThreadId::at(1);
    assert!(rt; state_of(&tasks, turner) == State::Ready && tasks.stamp(turner) == 0);
    assert!(rt; state_of(&tasks, sleeper) == State::Ready && tasks.stamp(sleeper) == 1);
    assert!(rt; tasks.op(turner) == Op::Run(4_000_000));
    assert!(rt; tasks.remaining(sleeper) == Some(400));
}

fn run(tasks: &mut Tasks, x: ThreadId) {
    tasks.run(x, CpuId::at(0));
}

fn block(tasks: &mut Tasks, x: ThreadId, state: State) {
    tasks.block(x, state);
}

fn exit(tasks: &mut Tasks, x: ThreadId) {
    tasks.exit(x);
}

#[test]
fn a_thread_sleeps_from_its_next_operation(rt: HostRuntime) {
    let mut tasks = begun(&rt, rt.alloc());
    let sleeper = ThreadId::at(1);
    let receiving = State::Receiving(ChannelId::at(3));
    run(&mut tasks, sleeper);
    assert!(rt; advance(&mut tasks, sleeper, 400) == Some(900));
    assert!(rt; state_of(&tasks, sleeper) == State::Sleeping(900));
    block(&mut tasks, sleeper, receiving);
    assert!(rt; advance(&mut tasks, sleeper, 1000) == None);
    assert!(rt; state_of(&tasks, sleeper) == receiving);
    exit(&mut tasks, sleeper);
    assert!(rt; state_of(&tasks, sleeper) == State::Gone);
}
