//! Journals, printed and read.
use aps_model::{CpuId, Done, Entry, ThreadId};
use aps_text::{JournalRefusal, cpu_of_line, journal_at, print_journal, read_journal};
use std::alloc::Global;
use std::process::Abort;

const SLEEPING_WORKER: &str = "\
0 0 0 - - - - 1 - -
0 0 400000 1 1 - run 0 1 -
0 400000 1000000 0 0 - - 1 - -
0 1000000 1001000 1 1 - repeat 1 - -
0 1001000 1401000 1 1 - run 0 1 -
0 1401000 2000000 0 0 - - 0 1 -
0 2000000 3000000 0 0 - - - - -
";

const SHARED_SERVER: &str = "\
0 0 0 - - - - 0 - -
0 0 1000 0 0 - receive:blocked 1 0 -
0 1000 2000 1 1 - send:0 0 0 -
0 2000 1000000 0 1 - - 0 0 -
0 1000000 2000000 0 1 - - 0 0 -
0 2000000 3000000 0 1 - - 0 0 -
0 3000000 3002000 0 1 - run 0 0 -
0 3002000 3003000 0 1 - reply:1 0 - -
0 3003000 3004000 0 0 - repeat 0 - -
0 3004000 3005000 0 0 - receive:blocked 1 0 -
0 3005000 3006000 1 1 - exit - 0 -
0 3006000 4000000 - - - - - - -
";

const REFUSED_RECEIVE: &str = "\
0 0 0 - - - - 1 - -
0 0 1000 1 0 - send:blocked - 0 -
0 1000 1000000 - - - - 2 - -
0 1000000 1001000 2 0 - send:blocked - 0 -
0 1001000 2000000 - - - - 0 - -
0 2000000 2001000 0 0 - reply:none 0 - -
0 2001000 2002000 0 0 - receive:2 0 - -
0 2002000 2003000 0 0 - receive:holding:2 0 - -
0 2003000 2004000 0 0 - reply:2 2 - -
0 2004000 2005000 2 0 - exit 0 - -
0 2005000 2006000 0 0 - receive:1 0 - -
0 2006000 2007000 0 0 - reply:1 1 - -
0 2007000 2008000 1 0 - exit 0 - -
0 2008000 3000000 0 0 - - - - -
";

fn entries_of(alloc: Global, text: &str) -> Result<Vec<Entry>, JournalRefusal> {
    if text.len() > 4_000_000_000 {
        return Err(JournalRefusal::NoMemory);
    }
    read_journal(alloc, text.as_bytes())
}

/// The text is a journal of so many entries, and is what they are printed as.
fn check_journal(rt: &impl Abort, alloc: Global, text: &str, count: usize) {
    let entries = entries_of(alloc, text).expect(rt, "a journal");
    assert_eq!(rt; entries.len(), count);
    let printed = print_journal(alloc, entries.as_slice()).expect(rt, "memory");
    assert_eq!(rt; printed.as_str(), text);
}

#[test]
fn worked_journals_are_read_and_printed_again(rt: HostRuntime) {
    check_journal(&rt, rt.alloc(), SLEEPING_WORKER, 7);
    check_journal(&rt, rt.alloc(), SHARED_SERVER, 12);
    check_journal(&rt, rt.alloc(), REFUSED_RECEIVE, 14);
    check_journal(&rt, rt.alloc(), "", 0);
}

/// The one entry of a journal.
fn only_entry(rt: &impl Abort, alloc: Global, text: &str) -> Entry {
    let entries = entries_of(alloc, text).expect(rt, "a journal");
    assert_eq!(rt; entries.len(), 1);
    entries[0]
}

#[test]
fn fields_are_told_apart(rt: HostRuntime) {
    let line = "15 9999999999999 10000000000000 1023 31 c receive:holding:7 5 3 4\n";
    let entry = only_entry(&rt, rt.alloc(), line);
    assert_eq!(rt; entry.cpu.index(), 15);
    assert_eq!(rt; entry.from, 9_999_999_999_999);
    assert_eq!(rt; entry.to, 10_000_000_000_000);
    assert_eq!(rt; entry.ran.map(|thread| thread.index()), Some(1023));
    assert_eq!(rt; entry.billed.map(|partition| partition.index()), Some(31));
    assert!(rt; entry.critical);
    assert_eq!(rt; entry.done, Done::ReceiveHolding(ThreadId::at(7)));
    assert_eq!(rt; entry.picked.map(|thread| thread.index()), Some(5));
    assert_eq!(rt; entry.starved.map(|partition| partition.index()), Some(3));
    assert_eq!(rt; entry.flagged.map(|cpu| cpu.index()), Some(4));
}

/// Texts that are no journals, each with the place of what is wrong.
const BAD_LINES: [(&str, u32, u32); 14] = [
    ("0 0 x", 1, 5),
    ("16 0 0 - - - - - - -\n", 1, 2),
    ("0 00 0 - - - - - - -\n", 1, 4),
    ("0 0 10000000000001 - - - - - - -\n", 1, 18),
    ("0 0 0 1024 - - - - - -\n", 1, 10),
    ("0 0 0 - 32 - - - - -\n", 1, 10),
    ("0 0 0 - - C - - - -\n", 1, 11),
    ("0 0 0 - - - receive:holding - - -\n", 1, 28),
    ("0 0 0 - - - runs - - -\n", 1, 16),
    ("0 0 0 - - - - - -\n", 1, 18),
    ("0 0 0 - - - - - - - \n", 1, 20),
    ("0 0 0 - - - - - - -", 1, 20),
    ("0 0 0 - - - - - - -\n\n", 2, 1),
    ("0 0 0 - - - - - - -\n0 0 0 - - - - - - -\n0", 3, 2),
];

/// What is wrong with a text that is no journal.
fn refusal_of(alloc: Global, text: &str) -> Option<JournalRefusal> {
    entries_of(alloc, text).err()
}

// The table is passed on, so that what is proved of the loop is free of its texts.
fn check_bad_lines(rt: &impl Abort, alloc: Global, cases: &[(&str, u32, u32)]) {
    for (text, line, column) in cases {
        let bad_line = JournalRefusal::BadLine {
            line: *line,
            column: *column,
        };
        assert!(rt; refusal_of(alloc, text) == Some(bad_line), "{text}");
    }
}

#[test]
fn bad_lines_have_their_places(rt: HostRuntime) {
    check_bad_lines(&rt, rt.alloc(), &BAD_LINES);
}

// The length of the scenario, and where the journal begins, of such a text.
fn parts_of(text: &str) -> Option<(usize, usize)> {
    journal_at(text.as_bytes()).map(|at| (at.scenario_len, at.journal_from))
}

#[test]
fn the_journal_begins_behind_its_line(rt: HostRuntime) {
    assert_eq!(rt; parts_of("version = 1\n--- journal\n0 0 x"), Some((12, 24)));
    assert_eq!(rt; parts_of("--- journal\n"), Some((0, 12)));
    assert_eq!(rt; parts_of("a\n--- journal\n--- journal\n"), Some((2, 14)));
    assert_eq!(rt;
        parts_of("a --- journal\n\n--- journal \n--- journal\r\n--- journal"),
        None
    );
    assert_eq!(rt; parts_of(""), None);
}

#[test]
fn a_line_names_its_processor_first(rt: HostRuntime) {
    assert_eq!(rt; cpu_of_line(b"0 0 0 - - - - 1 - -\n"), Some(CpuId::at(0)));
    assert_eq!(rt; cpu_of_line(b"15 "), Some(CpuId::at(15)));
    for other in ["", "1", "16 ", "01 ", "- ", " 1 ", "1\n"] {
        assert_eq!(rt; cpu_of_line(other.as_bytes()), None);
    }
}
