//! Sinks that fail: at the first write, and at each write that a whole call makes, in turn.
use super::TWO_EQUAL;
use super::calls::{End, entries_of, journal_of, source_of, text_of, words_of};
use aps_cpu::OpenGate;
use aps_io::MemSink;
use aps_top::top::top;
use std::alloc::Global;
use std::process::Abort;
use std::sync::Wait;
use std::thread::Threads;

const REBOOTED: &str = r#"version = 1
cpus = 1
window = 10
ticks = 20
bankruptcy = "reboot"
partition = [{name = "A", budget = 0, critical = 1500000}]
thread = [
  {name = "s", program = ["run forever"]},
  {name = "k", partition = "A", priority = 20, critical = true, program = ["run forever"]},
]
"#;

const SLEEPING_WORKER: &str = r#"version = 1
cpus = 1
window = 10
ticks = 3
partition = [{name = "A", budget = 50}]
thread = [
  {name = "s", program = ["run forever"]},
  {name = "w", partition = "A", priority = 20, program = ["run 400000", "sleep 600000", "repeat"]},
]
"#;

const SLEEPING_WORKER_JOURNAL: &str = "0 0 0 - - - - 1 - -
0 0 400000 1 1 - run 0 1 -
0 400000 1000000 0 0 - - 1 - -
0 1000000 1001000 1 1 - repeat 1 - -
0 1001000 1401000 1 1 - run 0 1 -
0 1401000 2000000 0 0 - - 0 1 -
0 2000000 3000000 0 0 - - - - -
";

/// A call writes at most so many pieces here.
const MOST_WRITES: u32 = 64;

/// A sink of which the write of this number fails.
fn failing_sink(rt: &impl Abort, alloc: Global, failing: u32) -> MemSink {
    let fails = vec![in alloc; failing].expect(rt, "memory");
    MemSink::new(Vec::new(alloc), fails)
}

/// How a call with these words over this input ends, where it writes to this sink.
fn end_in<R: Abort + Threads + Wait + Sync>(
    rt: &R,
    alloc: Global,
    words: &[&str],
    input: &[u8],
    sink: &mut MemSink,
) -> End {
    let words = words_of(rt, alloc, words);
    let mut source = source_of(rt, alloc, input);
    let ended = top(rt, alloc, &words, &mut source, sink, &OpenGate);
    (ended.status, entries_of(&ended.history))
}

#[test]
fn the_first_write_fails(rt: HostRuntime) {
    let cases: [(&str, &str, End); 3] = [
        ("solo", TWO_EQUAL, (5, Some(21))),
        ("solo", REBOOTED, (3, Some(3))),
        ("fly", "", (1, None)),
    ];
    for (word, input, wanted) in cases {
        let mut sink = failing_sink(&rt, rt.alloc(), 0);
        let end = end_in(&rt, rt.alloc(), &[word], input.as_bytes(), &mut sink);
        assert_eq!(rt; end, wanted);
        assert_eq!(rt; sink.written().len(), 0);
    }
}

/// Whether the call writes this text whole where the write of this number fails, as it makes no such write; else it ends with
/// status 5, and a proper beginning of the text was written.
fn is_whole<R: Abort + Threads + Wait + Sync>(
    rt: &R,
    alloc: Global,
    words: &[&str],
    input: &[u8],
    whole: &[u8],
    failing: u32,
) -> bool {
    let mut sink = failing_sink(rt, alloc, failing);
    let (status, _) = end_in(rt, alloc, words, input, &mut sink);
    if status == 0 {
        assert_eq!(rt; sink.written(), whole);
        return true;
    }
    assert_eq!(rt; status, 5);
    assert!(rt; sink.written().len() < whole.len());
    assert!(rt; whole.starts_with(sink.written()));
    false
}

/// How many writes the call makes, each of which fails in turn; none, where it makes too many.
fn writes_of<R: Abort + Threads + Wait + Sync>(
    rt: &R,
    alloc: Global,
    words: &[&str],
    input: &[u8],
    whole: &[u8],
) -> Option<u32> {
    for failing in 0..MOST_WRITES {
        if is_whole(rt, alloc, words, input, whole, failing) {
            return Some(failing);
        }
    }
    None
}

#[test]
fn each_write_of_a_short_journal_fails_in_turn(rt: HostRuntime) {
    let words = ["solo", "--report", "journal"];
    let (input, whole) = (
        SLEEPING_WORKER.as_bytes(),
        SLEEPING_WORKER_JOURNAL.as_bytes(),
    );
    let writes = writes_of(&rt, rt.alloc(), &words, input, whole);
    assert!(rt; matches!(writes, Some(count) if count > 0));
}

#[test]
fn each_write_of_a_long_journal_fails_in_turn(rt: HostRuntime) {
    let load = [
        "gen",
        "--seed=7",
        "--cpus=2",
        "--partitions=3",
        "--ticks=500",
    ];
    let input = text_of(&rt, rt.alloc(), &load, b"");
    let whole = journal_of(&rt, rt.alloc(), input.written());
    let words = ["run", "--order=fixed", "--report=journal"];
    let writes = writes_of(&rt, rt.alloc(), &words, input.written(), whole.written());
    assert!(rt; matches!(writes, Some(count) if count > 2));
}
