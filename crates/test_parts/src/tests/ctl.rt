//! Commands on one tree, answered as by hand.
ghost use Rattle.std.specs.Prelude.{◌≡◌, ◌≤◌};

use aps_ctl::{change_by, mark_by, perform};
use aps_model::{
    Answer, Bankruptcy, Call, ChangeKind, CtlRefusal, CtlView, Facts, Free, Name, PartitionId,
    PartitionRow, Shape, State, ThreadId, ThreadView,
};
use aps_tree::Tree;
use std::alloc::Global;
use std::process::Abort;

fn shape() -> Shape
    ensures { result.parts ≡ 100 }
{
    Shape {
        parts: 100,
        cpus: 1,
        tick: 1_000_000,
        window: 100,
        ticks: 10,
        call_ns: 1_000,
        free: Free::Priority,
        limit: false,
        bankruptcy: Bankruptcy::Basic,
    }
}

fn facts(partition: usize, priority: u8) -> Facts {
    Facts {
        partition: PartitionId::at(partition.min(31)),
        priority,
        critical: false,
    }
}

fn view(state: State) -> CtlView {
    CtlView {
        used: [7; 32],
        critical_used: [5; 32],
        thread: Some(ThreadView {
            own: facts(0, 10),
            now: facts(1, 20),
            state,
        }),
    }
}

fn create(name: Name, parent: Name, budget: u16, max: u16) -> Call {
    Call::Create {
        name,
        parent,
        budget,
        critical: 0,
        max,
    }
}

fn modify(partition: Name, budget: Option<u16>, max: Option<u16>) -> Call {
    Call::Modify {
        partition,
        budget,
        critical: None,
        max,
    }
}

fn bad_max(partition: usize, least: u16) -> CtlRefusal {
    CtlRefusal::BadMax {
        partition: PartitionId::at(partition.min(31)),
        least,
    }
}

/// A tree of `System` alone.
fn alone(rt: &impl Abort, alloc: Global) -> Tree
    ensures { result.parts ≡ 100 }
{
    Tree::new(alloc, 100).expect(rt, "memory")
}

fn name(rt: &impl Abort, text: &[u8]) -> Name {
    Name::new(text).expect(rt, "a name")
}

/// The answer to a command, while thread 3 is in this state.
fn answer(tree: &mut Tree, state: State, call: &Call) -> Answer
    requires { tree.old.parts ≡ 100 }
    ensures { tree.new.parts ≡ 100 }
{
    perform(call, tree, &mut shape(), &view(state))
}

/// The tree answers so.
fn check(rt: &impl Abort, tree: &mut Tree, call: Call, wanted: Answer)
    requires { tree.old.parts ≡ 100 }
    ensures { tree.new.parts ≡ 100 }
{
    assert!(rt; answer(tree, State::Ready, &call) == wanted);
}

/// The tree refuses this.
fn check_refused(rt: &impl Abort, tree: &mut Tree, call: Call, why: CtlRefusal)
    requires { tree.old.parts ≡ 100 }
    ensures { tree.new.parts ≡ 100 }
{
    check(rt, tree, call, Answer::Refused(why));
}

/// A tree in which `A` has 30 parts.
fn with_a(rt: &impl Abort, alloc: Global) -> Tree
    ensures { result.parts ≡ 100 }
{
    let mut tree = alone(rt, alloc);
    let call = create(name(rt, b"A"), name(rt, b"System"), 30, 100);
    check(rt, &mut tree, call, Answer::Created(PartitionId::at(1)));
    tree
}

#[test]
fn other_partitions_are_refused(rt: HostRuntime) {
    let mut tree = with_a(&rt, rt.alloc());
    let (system, a, b) = (name(&rt, b"System"), name(&rt, b"A"), name(&rt, b"B"));
    let over = CtlRefusal::OverBudget { have: 30 };
    let taken = CtlRefusal::NameTaken;
    check_refused(&rt, &mut tree, create(a, system, 1, 100), taken);
    let none = CtlRefusal::NoPartition;
    check_refused(&rt, &mut tree, create(a, b, 1, 100), none);
    check_refused(&rt, &mut tree, create(b, a, 31, 100), over);
    check_refused(&rt, &mut tree, create(b, a, 10, 9), bad_max(2, 10));
}

/// The tree in which `A` has 40 parts, and 50 at most.
fn modified(rt: &impl Abort, alloc: Global) -> Tree
    ensures { result.parts ≡ 100 }
{
    let mut tree = with_a(rt, alloc);
    let call = modify(name(rt, b"A"), Some(40), Some(50));
    check(rt, &mut tree, call, Answer::Modified);
    tree
}

#[test]
fn other_budgets_are_refused(rt: HostRuntime) {
    let mut tree = with_a(&rt, rt.alloc());
    let (system, a, b) = (name(&rt, b"System"), name(&rt, b"A"), name(&rt, b"B"));
    let none = CtlRefusal::NoPartition;
    check_refused(&rt, &mut tree, modify(b, None, None), none);
    let root = CtlRefusal::NoParent;
    check_refused(&rt, &mut tree, modify(system, Some(1), None), root);
    check_refused(&rt, &mut tree, modify(a, None, Some(29)), bad_max(1, 30));
}

#[test]
fn questions_of_a_partition_are_answered(rt: HostRuntime) {
    let mut tree = modified(&rt, rt.alloc());
    let (a, b) = (name(&rt, b"A"), name(&rt, b"B"));
    let (id, used, critical_used) = (PartitionId::at(1), 7, 5);
    let row = PartitionRow {
        name: a,
        parent: PartitionId::at(0),
        budget: 40,
        critical: 0,
        max: 50,
    };
    let partition = Answer::Partition {
        id,
        row,
        used,
        critical_used,
    };
    let statistics = Answer::Statistics {
        id,
        used,
        critical_used,
    };
    let lookup = Call::Lookup { partition: a };
    check(&rt, &mut tree, lookup, Answer::Found(id));
    let none = CtlRefusal::NoPartition;
    check_refused(&rt, &mut tree, Call::Lookup { partition: b }, none);
    let query = Call::QueryPartition { partition: a };
    check(&rt, &mut tree, query, partition);
    let query = Call::Statistics { partition: a };
    check(&rt, &mut tree, query, statistics);
}

#[test]
fn questions_of_threads_and_parameters_are_answered(rt: HostRuntime) {
    let mut tree = alone(&rt, rt.alloc());
    let thread = ThreadId::at(3);
    let told = Answer::Thread {
        id: thread,
        own: facts(0, 10),
        now: facts(1, 20),
        state: State::Ready,
    };
    check(&rt, &mut tree, Call::QueryThread { thread }, told);
    let parameters = Answer::Parameters(shape());
    check(&rt, &mut tree, Call::QueryParameters, parameters);
    let mark = Call::MarkCritical { thread };
    check(&rt, &mut tree, mark, Answer::Marked);
}

/// The shape after this command, with its answer and the change that it made.
fn shape_after(tree: &mut Tree, call: &Call) -> (Shape, Answer, Option<ChangeKind>)
    requires { tree.old.parts ≡ 100 }
{
    let mut now = shape();
    let answer = perform(call, tree, &mut now, &view(State::Ready));
    (now, answer, change_by(call, &answer, tree))
}

#[test]
fn parameters_are_set(rt: HostRuntime) {
    let mut tree = alone(&rt, rt.alloc());
    let set = Call::SetParameters {
        window: Some(8),
        free: None,
        limit: Some(true),
        bankruptcy: None,
    };
    let expected = Shape {
        window: 8,
        limit: true,
        ..shape()
    };
    let (now, answer, change) = shape_after(&mut tree, &set);
    assert!(rt; answer == Answer::Set);
    assert!(rt; change == Some(ChangeKind::Parameters));
    assert!(rt; now == expected);
}

#[test]
fn a_thread_that_is_gone_is_not_marked(rt: HostRuntime) {
    let mut tree = alone(&rt, rt.alloc());
    let clear = Call::ClearCritical {
        thread: ThreadId::at(3),
    };
    let cleared = answer(&mut tree, State::Ready, &clear);
    assert!(rt; cleared == Answer::Cleared);
    assert!(rt; mark_by(&cleared) == Some(false));
    let gone = answer(&mut tree, State::Gone, &clear);
    assert!(rt; gone == Answer::Refused(CtlRefusal::Gone));
    assert!(rt; mark_by(&gone) == None);
}

/// The answer to the creation of a partition of one part, named by its number.
fn created(rt: &impl Abort, tree: &mut Tree, i: u8) -> Answer
    requires i { i ≤ 99 }
    requires parts { tree.old.parts ≡ 100 }
    ensures { tree.new.parts ≡ 100 }
{
    let name_of_it = name(rt, &[b'A', b'0' + i / 10, b'0' + i % 10]);
    let call = create(name_of_it, name(rt, b"System"), 1, 100);
    answer(tree, State::Ready, &call)
}

#[test]
fn a_partition_too_many_is_refused(rt: HostRuntime) {
    let mut tree = alone(&rt, rt.alloc());
    for i in 1..32u8 {
        let id = PartitionId::at(i as usize);
        assert!(rt; created(&rt, &mut tree, i) == Answer::Created(id));
    }
    let one_more = created(&rt, &mut tree, 32);
    assert!(rt; one_more == Answer::Refused(CtlRefusal::TooMany));
}
