//! The reports of small histories, whole.
ghost use Rattle.std.specs.Prelude.{◌≡◌, ◌≤◌, [], IfSome};

use super::histories::{self, add_all};
use aps_io::MemSink;
use aps_model::{
    Answer, Audit, Bankruptcy, ChannelId, CpuId, CtlRefusal, Done, End, Entry, Facts, Free,
    History, Name, Nanos, PartitionId, PartitionRow, Reply, Shape, State, ThreadId, Worst,
};
use aps_report::{JournalFault, journal, summary, usage, windows};
use std::alloc::Global;
use std::process::Abort;

/// `System` and `A` with half of the time each, and a thread in each that runs forever.
const TWO_EQUAL: &str = r#"version = 1
cpus = 1
window = 10
ticks = 20
partition = [{name = "A", budget = 50}]
thread = [
  {name = "s", program = ["run forever"]},
  {name = "a", partition = "A", program = ["run forever"]},
]
"#;

const SHAPE: Shape = Shape {
    parts: 100,
    cpus: 1,
    tick: 1_000_000,
    window: 10,
    ticks: 20,
    call_ns: 1000,
    free: Free::Priority,
    limit: false,
    bankruptcy: Bankruptcy::Basic,
};

const NO_AUDIT: Audit = Audit {
    loaded_from: 0,
    worst_over: None,
    worst_short: None,
    critical_worst: None,
};

/// The history of the two equal partitions at its start.
fn begun(rt: &impl Abort, alloc: Global) -> History
    ensures replies { result.replies ≡ [] }
    ensures room { result.room ≡ record { entries = 5000; replies = 32; changes = 8 } }
{
    histories::begun(rt, alloc, TWO_EQUAL)
}

/// The same history with these entries, at its end.
fn ended(rt: &impl Abort, alloc: Global, entries: &[Entry]) -> History {
    let mut history = begun(rt, alloc);
    add_all(rt, &mut history, entries);
    history.set_end(End::Horizon);
    history
}

/// An entry of processor 0 without a critical, a starved or a flagged one.
fn entry(from: Nanos, to: Nanos, ran: Option<usize>, done: Done, picked: Option<usize>) -> Entry
    requires ran { IfSome ran (λ x. x ≤ 1) }
    requires picked { IfSome picked (λ x. x ≤ 1) }
{
    Entry {
        from,
        to,
        done,
        ran: ran.map(ThreadId::at),
        picked: picked.map(ThreadId::at),
        // thread 0 is one of `System`, thread 1 one of `A`
        billed: ran.map(PartitionId::at),
        starved: None,
        flagged: None,
        cpu: CpuId::at(0),
        critical: false,
    }
}

/// The two threads take turns, a tick each, from `s` on.
fn two_equal(rt: &impl Abort, alloc: Global) -> History {
    let mut entries = [entry(0, 0, None, Done::Nothing, Some(0)); 21];
    for k in 0..20 {
        let from = k as u64 * 1_000_000;
        let ran = Some(k % 2);
        let picked = if k < 19 { Some((k + 1) % 2) } else { None };
        entries[k + 1] = entry(from, from + 1_000_000, ran, Done::Nothing, picked);
    }
    ended(rt, alloc, &entries)
}

#[test]
fn the_usage_of_two_equal_partitions(rt: HostRuntime) {
    let history = two_equal(&rt, rt.alloc());
    let text = usage(rt.alloc(), &history).expect(&rt, "memory");
    assert_eq!(rt;
        text.as_str(),
        "aps summary 1\nend horizon\nshape cpus 1 tick 1000000 window 10 ticks 20\nentries 21\npartition 0 System budget 50 billed 10000000 critical 0\npartition 1 A budget 50 billed 10000000 critical 0\nidle 0\nthread 0 s ran 10000000\nthread 1 a ran 10000000\n"
    );
}

#[test]
fn the_windows_of_two_equal_partitions(rt: HostRuntime) {
    let history = two_equal(&rt, rt.alloc());
    let text = windows(rt.alloc(), &history).expect(&rt, "memory");
    assert_eq!(rt;
        text.as_str(),
        "aps windows 1\nend horizon\nwindow 0 5000000 5000000\nwindow 10 5000000 5000000\n"
    );
}

fn worst(amount: Nanos, partition: usize, window: u32) -> Option<Worst>
    requires { partition ≤ 31 }
{
    Some(Worst {
        amount,
        partition: PartitionId::at(partition),
        window,
    })
}

#[test]
fn the_summary_has_the_audit_after_the_usage(rt: HostRuntime) {
    let mut history = begun(&rt, rt.alloc());
    history.set_end(End::Reboot(PartitionId::at(1)));
    let audit = Audit {
        loaded_from: 3,
        worst_over: worst(300_000, 0, 0),
        worst_short: worst(200_000, 1, 10),
        critical_worst: None,
    };
    let text = summary(rt.alloc(), &history, &audit).expect(&rt, "memory");
    assert_eq!(rt;
        text.as_str(),
        "aps summary 1\nend reboot 1\nshape cpus 1 tick 1000000 window 10 ticks 20\nentries 0\npartition 0 System budget 50 billed 0 critical 0\npartition 1 A budget 50 billed 0 critical 0\nidle 0\nthread 0 s ran 0\nthread 1 a ran 0\nloaded 3\nover 300000 partition 0 window 0\nshort 200000 partition 1 window 10\novercritical none\n"
    );
}

/// The line of the reply to command 7 that gives this answer ends the summary.
fn check(rt: &impl Abort, alloc: Global, answer: Answer, line: &str) {
    let mut history = begun(rt, alloc);
    history.add_reply(Reply { command: 7, answer });
    let text = summary(alloc, &history, &NO_AUDIT).expect(rt, "memory");
    assert!(rt; text.as_str().ends_with(line), "{line}");
}

#[test]
fn the_answers_to_changes(rt: HostRuntime) {
    let alloc = rt.alloc();
    let created = Answer::Created(PartitionId::at(2));
    check(&rt, alloc, created, "\nreply 7 created 2\n");
    check(&rt, alloc, Answer::Modified, "\nreply 7 modified\n");
    check(&rt, alloc, Answer::Set, "\nreply 7 set\n");
    check(&rt, alloc, Answer::Marked, "\nreply 7 marked\n");
    check(&rt, alloc, Answer::Cleared, "\nreply 7 cleared\n");
}

#[test]
fn the_answers_to_questions(rt: HostRuntime) {
    let alloc = rt.alloc();
    let found = Answer::Found(PartitionId::at(3));
    check(&rt, alloc, found, "\nreply 7 found 3\n");
    let row = PartitionRow {
        name: Name::new(b"B").unwrap(),
        parent: PartitionId::at(2),
        budget: 25,
        critical: 7,
        max: 90,
    };
    let partition = Answer::Partition {
        id: PartitionId::at(1),
        row,
        used: 1_000_000,
        critical_used: 2000,
    };
    check(
        &rt,
        alloc,
        partition,
        "\nreply 7 partition 1 parent 2 budget 25 critical 7 max 90 used 1000000 critical_used 2000\n",
    );
    let statistics = Answer::Statistics {
        id: PartitionId::at(1),
        used: 6,
        critical_used: 5,
    };
    check(
        &rt,
        alloc,
        statistics,
        "\nreply 7 statistics 1 used 6 critical_used 5\n",
    );
}

#[test]
fn the_answers_to_questions_of_parameters(rt: HostRuntime) {
    let alloc = rt.alloc();
    check(
        &rt,
        alloc,
        Answer::Parameters(SHAPE),
        "\nreply 7 parameters window 10 tick 1000000 free priority limit no bankruptcy basic\n",
    );
    let other = Shape {
        free: Free::Ratio,
        limit: true,
        bankruptcy: Bankruptcy::Cancel,
        ..SHAPE
    };
    check(
        &rt,
        alloc,
        Answer::Parameters(other),
        "\nreply 7 parameters window 10 tick 1000000 free ratio limit yes bankruptcy cancel\n",
    );
    let last = Shape {
        bankruptcy: Bankruptcy::Reboot,
        ..SHAPE
    };
    check(
        &rt,
        alloc,
        Answer::Parameters(last),
        "\nreply 7 parameters window 10 tick 1000000 free priority limit no bankruptcy reboot\n",
    );
}

/// A thread of partition 1 that inherits from partition 2.
fn inheriting(state: State, critical: bool) -> Answer {
    let own = Facts {
        partition: PartitionId::at(1),
        priority: 10,
        critical: false,
    };
    let now = Facts {
        partition: PartitionId::at(2),
        priority: 20,
        critical,
    };
    Answer::Thread {
        id: ThreadId::at(4),
        own,
        now,
        state,
    }
}

#[test]
fn the_answers_to_questions_of_a_thread(rt: HostRuntime) {
    let alloc = rt.alloc();
    let ready = inheriting(State::Ready, true);
    check(
        &rt,
        alloc,
        ready,
        "\nreply 7 thread 4 own 1 partition 2 priority 20 critical yes state ready\n",
    );
    let gone = inheriting(State::Gone, false);
    check(
        &rt,
        alloc,
        gone,
        "\nreply 7 thread 4 own 1 partition 2 priority 20 critical no state gone\n",
    );
    let running = inheriting(State::Running(CpuId::at(0)), false);
    check(&rt, alloc, running, " critical no state running\n");
    let sleeping = inheriting(State::Sleeping(9), false);
    check(&rt, alloc, sleeping, " critical no state sleeping\n");
    let sending = inheriting(State::Sending(ChannelId::at(5)), false);
    check(&rt, alloc, sending, " critical no state sending\n");
    let receiving = inheriting(State::Receiving(ChannelId::at(5)), false);
    check(&rt, alloc, receiving, " critical no state receiving\n");
    let replying = inheriting(State::Replying(ThreadId::at(6)), false);
    check(&rt, alloc, replying, " critical no state replying\n");
}

#[test]
fn the_refusals_of_commands(rt: HostRuntime) {
    let alloc = rt.alloc();
    let none = Answer::Refused(CtlRefusal::NoPartition);
    check(&rt, alloc, none, "\nreply 7 no-partition\n");
    let taken = Answer::Refused(CtlRefusal::NameTaken);
    check(&rt, alloc, taken, "\nreply 7 name-taken\n");
    let many = Answer::Refused(CtlRefusal::TooMany);
    check(&rt, alloc, many, "\nreply 7 too-many\n");
    let root = Answer::Refused(CtlRefusal::NoParent);
    check(&rt, alloc, root, "\nreply 7 no-parent\n");
    let over = Answer::Refused(CtlRefusal::OverBudget { have: 25 });
    check(&rt, alloc, over, "\nreply 7 over-budget 25\n");
    let low = Answer::Refused(CtlRefusal::BadMax {
        partition: PartitionId::at(1),
        least: 40,
    });
    check(&rt, alloc, low, "\nreply 7 bad-max 1 40\n");
    let gone = Answer::Refused(CtlRefusal::Gone);
    check(&rt, alloc, gone, "\nreply 7 gone\n");
}

/// A thread of `A` that sleeps after each 400,000 ns, beside one of `System`.
fn sleeping_worker(rt: &impl Abort, alloc: Global) -> History {
    let entries = [
        entry(0, 0, None, Done::Nothing, Some(1)),
        starved(entry(0, 400_000, Some(1), Done::Run, Some(0))),
        entry(400_000, 1_000_000, Some(0), Done::Nothing, Some(1)),
        entry(1_000_000, 1_001_000, Some(1), Done::Repeat, Some(1)),
        starved(entry(1_001_000, 1_401_000, Some(1), Done::Run, Some(0))),
        starved(entry(1_401_000, 2_000_000, Some(0), Done::Nothing, Some(0))),
        entry(2_000_000, 3_000_000, Some(0), Done::Nothing, None),
    ];
    ended(rt, alloc, &entries)
}

/// The same entry, with `A` starved.
fn starved(e: Entry) -> Entry {
    Entry {
        starved: Some(PartitionId::at(1)),
        ..e
    }
}

/// What is written of the journal of a history, where no write fails.
fn journal_of(rt: &impl Abort, alloc: Global, history: &History) -> MemSink {
    let mut sink = MemSink::new(Vec::new(alloc), Vec::new(alloc));
    assert_eq!(rt; journal(alloc, history, &mut sink), Ok(()));
    sink
}

/// What is written of it up to the write of this number, which fails, as is told.
fn failed_journal(rt: &impl Abort, alloc: Global, history: &History, failing: u32) -> MemSink {
    let fails = vec![in alloc; failing].expect(rt, "memory");
    let mut sink = MemSink::new(Vec::new(alloc), fails);
    let fault = Err(JournalFault::WriteFault);
    assert_eq!(rt; journal(alloc, history, &mut sink), fault);
    sink
}

#[test]
fn the_journal_of_a_sleeping_worker(rt: HostRuntime) {
    let history = sleeping_worker(&rt, rt.alloc());
    let whole = journal_of(&rt, rt.alloc(), &history);
    assert_eq!(rt;
        whole.written(),
        b"0 0 0 - - - - 1 - -\n0 0 400000 1 1 - run 0 1 -\n0 400000 1000000 0 0 - - 1 - -\n0 1000000 1001000 1 1 - repeat 1 - -\n0 1001000 1401000 1 1 - run 0 1 -\n0 1401000 2000000 0 0 - - 0 1 -\n0 2000000 3000000 0 0 - - - - -\n".as_slice()
    );
    let failed = failed_journal(&rt, rt.alloc(), &history, 0);
    assert_eq!(rt; failed.written().len(), 0);
}

/// 4,000 entries of no time.
fn idle(rt: &impl Abort, alloc: Global) -> History {
    let entries = vec![in alloc; entry(0, 0, None, Done::Nothing, None); 4000];
    ended(rt, alloc, &entries.expect(rt, "memory"))
}

#[test]
fn a_long_journal_fails_in_mid_stream(rt: HostRuntime) {
    let line = b"0 0 0 - - - - - - -\n";
    let history = idle(&rt, rt.alloc());
    let whole = journal_of(&rt, rt.alloc(), &history);
    assert_eq!(rt; whole.written().len(), 4000 * line.len());
    let failed = failed_journal(&rt, rt.alloc(), &history, 1);
    assert!(rt; failed.written().len() > 0);
    assert!(rt; whole.written().starts_with(failed.written()));
}
