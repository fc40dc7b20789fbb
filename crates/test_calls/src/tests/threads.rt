//! Whole calls with a thread for each processor.
use super::calls::{journal_of, source_of, words_of};
use super::{TWO_EQUAL, TWO_PROCESSORS};
use aps_cpu::{Gate, MeetGate, OpenGate};
use aps_io::{CalmSink, CalmSource};
use aps_top::top::top;
use std::alloc::Global;
use std::process::Abort;
use std::sync::Wait;
use std::thread::Threads;

const TWO_EQUAL_SUMMARY: &str = "aps summary 1
end horizon
shape cpus 1 tick 1000000 window 10 ticks 20
entries 21
partition 0 System budget 50 billed 10000000 critical 0
partition 1 A budget 50 billed 10000000 critical 0
idle 0
thread 0 s ran 10000000
thread 1 a ran 10000000
loaded 0
over 0 partition 0 window 0
short 0 partition 0 window 0
overcritical 0 partition 0 window 0
";

const TWO_PROCESSORS_SUMMARY: &str = "aps summary 1
end horizon
shape cpus 2 tick 1000000 window 10 ticks 10
entries 23
partition 0 System budget 50 billed 10000000 critical 0
partition 1 A budget 50 billed 10000000 critical 0
idle 0
thread 0 s0 ran 5000000
thread 1 s1 ran 5000000
thread 2 a0 ran 5000000
thread 3 a1 ran 5000000
loaded 0
over 0 partition 0 window 0
short 0 partition 0 window 0
overcritical 0 partition 0 window 0
";

/// The status of a call with these words over this source, with this gate.
fn status_of<R: Threads + Wait + Sync, G: Gate + Sync>(
    rt: &R,
    alloc: Global,
    words: &[String],
    source: &mut CalmSource,
    sink: &mut CalmSink,
    gate: &G,
) -> u8 {
    top(rt, alloc, words, source, sink, gate).status
}

/// A call with these words over this input, with this gate, has status 0 and writes this text.
fn check<R: Abort + Threads + Wait + Sync, G: Gate + Sync>(
    rt: &R,
    alloc: Global,
    words: &[&str],
    input: &str,
    gate: &G,
    text: &[u8],
) {
    let words = words_of(rt, alloc, words);
    let mut source = source_of(rt, alloc, input.as_bytes());
    let mut sink = CalmSink::new(Vec::new(alloc));
    let status = status_of(rt, alloc, &words, &mut source, &mut sink, gate);
    assert_eq!(rt; status, 0);
    assert_eq!(rt; sink.written(), text);
}

#[test]
fn two_threads_meet(rt: HostRuntime) {
    let gate = MeetGate::new();
    let summary = TWO_PROCESSORS_SUMMARY.as_bytes();
    check(&rt, rt.alloc(), &["run"], TWO_PROCESSORS, &gate, summary);
    assert!(rt; gate.met());
}

#[test]
fn where_one_run_is_possible_threads_make_it(rt: HostRuntime) {
    for (input, order) in [(TWO_EQUAL, "free"), (TWO_PROCESSORS, "fixed")] {
        let alone = journal_of(&rt, rt.alloc(), input.as_bytes());
        let words = ["run", "--report=journal", "--order", order];
        check(&rt, rt.alloc(), &words, input, &OpenGate, alone.written());
    }
}

#[test]
fn summaries_of_threads(rt: HostRuntime) {
    let (one, two) = (
        TWO_EQUAL_SUMMARY.as_bytes(),
        TWO_PROCESSORS_SUMMARY.as_bytes(),
    );
    check(&rt, rt.alloc(), &["run"], TWO_EQUAL, &OpenGate, one);
    let fixed = ["run", "--order", "fixed"];
    check(&rt, rt.alloc(), &fixed, TWO_PROCESSORS, &OpenGate, two);
}
