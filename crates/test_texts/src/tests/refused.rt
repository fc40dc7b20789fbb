//! Texts that are refused, as tables.
use super::scenarios::{TWO_EQUAL_PARTITIONS, check};
use std::alloc::Global;
use std::process::Abort;

/// The part of the two equal partitions in front of their threads.
const SIZES: &str = r#"version = 1
cpus = 1
window = 10
ticks = 20
partition = [{name = "A", budget = 50}]"#;

const OF_VERSION_2: &str = r#"version = 2
cpus = 1
window = 10
ticks = 20
partition = [{name = "A", budget = 1001}]"#;

/// The two equal partitions up to their threads, and up to the first thread's program.
const THREADS: &str = r#"version = 1
cpus = 1
window = 10
ticks = 20
partition = [{name = "A", budget = 50}]
thread = ["#;

const PROGRAM: &str = r#"version = 1
cpus = 1
window = 10
ticks = 20
partition = [{name = "A", budget = 50}]
thread = [{name = "s", program = ["#;

const THREAD: &str = r#"{name = "s", program = ["run forever"]}, "#;

/// A command that creates `N`, and the first thread.
const CREATED: &str = r#"command = [{tick = 0, do = "create", name = "N", colour = 1}]
thread = [
  {name = "s", program = ["join N", "exit"]},"#;

const FIRST_THREAD: &str = r#"thread = [
  {name = "s", program = ["run forever"]},"#;

/// Whole texts, each with its answer.
const WHOLE: [(&[u8], &str); 8] = [
    (b"", "missing version"),
    (b"version = \"1", "not-toml -"),
    (b"version 1", "not-toml -"),
    (b"version = \xff", "not-toml -"),
    (b"version = 1\ncolour = 2", "unknown-key colour"),
    (b"version = 1\n\"b c\" = 2\na = 3", "unknown-key a"),
    (b"version = 1\n\"b c\" = 2", "unknown-key ?"),
    (b"version = true", "wrong-kind version"),
];

/// What is replaced in the two equal partitions, by what, and the answer.
const REPLACED: [(&str, &str, &str); 26] = [
    ("version = 1", "version = 3", "out-of-range version"),
    ("window = 10", "window = 7", "out-of-range window"),
    (
        "ticks = 20",
        "ticks = 20\naaaaaaaaaaaaaaaaaaaaaaaaaaaaaaaa = 1",
        "unknown-key aaaaaaaaaaaaaaaaaaaaaaaaaaaaaaaa",
    ),
    (
        "ticks = 20",
        "ticks = 20\naaaaaaaaaaaaaaaaaaaaaaaaaaaaaaaaa = 1",
        "unknown-key ?",
    ),
    (
        "\"A\", budget = 50",
        "\"A.b\", budget = 101",
        "bad-name partition[0].name",
    ),
    (
        "\"A\", budget",
        "\"System\", budget",
        "duplicate partition[0].name",
    ),
    (
        "budget = 50",
        "budget = 101",
        "out-of-range partition[0].budget",
    ),
    (SIZES, OF_VERSION_2, "out-of-range partition[0].budget"),
    (
        "budget = 50",
        "budget = 50, max = 49",
        "out-of-range partition[0].max",
    ),
    (
        "50}",
        "60}, {name = \"B\", budget = 41}",
        "budget-over partition[1].budget",
    ),
    (
        "50}",
        "50}, {name = \"B\", parent = \"A\", budget = 51}",
        "budget-over partition[1].budget",
    ),
    (
        "thread",
        "channel = [{name = \"c\"}, {name = \"c\"}]\nthread",
        "duplicate channel[1].name",
    ),
    ("name = \"a\"", "name = \"s\"", "duplicate thread[1].name"),
    (
        "\"A\", program",
        "\"Zed\", program",
        "unknown-name thread[1].partition",
    ),
    (
        ", program = [\"run forever\"]",
        "",
        "missing thread[0].program",
    ),
    ("\"run forever\"", "", "out-of-range thread[0].program"),
    ("\"run forever\"", "7", "wrong-kind thread[0].program[0]"),
    (
        "\"run forever\"",
        "\"run 0\", \"exit\"",
        "bad-operation thread[0].program[0]",
    ),
    (
        "\"run forever\"",
        "\"run 007\", \"exit\"",
        "bad-operation thread[0].program[0]",
    ),
    (
        "\"run forever\"",
        "\"run 5\"",
        "bad-operation thread[0].program[0]",
    ),
    (
        "\"run forever\"",
        "\"run forever\", \"exit\"",
        "bad-operation thread[0].program[0]",
    ),
    (
        "\"run forever\"",
        "\"run 5\", \"send c\"",
        "unknown-name thread[0].program[1]",
    ),
    (
        "\"run forever\"",
        "\"send é\", \"exit\"",
        "bad-operation thread[0].program[0]",
    ),
    (
        "\"run forever\"",
        "\"join a.b\", \"exit\"",
        "bad-operation thread[0].program[0]",
    ),
    (
        "\"run forever\"",
        "\"join N\", \"exit\"",
        "unknown-name thread[0].program[0]",
    ),
    (FIRST_THREAD, CREATED, "unknown-key command[0].colour"),
];

/// Commands of the two equal partitions, each with the answer.
const COMMANDS: [(&str, &str); 13] = [
    ("7", "wrong-kind command[0]"),
    ("{tick = 0}", "missing command[0].do"),
    (
        "{tick = 20, do = \"create\"}",
        "out-of-range command[0].tick",
    ),
    (
        "{tick = 20, do = \"lookup\", partition = \"A\"}",
        "out-of-range command[0].tick",
    ),
    (
        "{tick = 0, do = 7, budget = 1}",
        "unknown-key command[0].budget",
    ),
    ("{tick = 0, do = 7}", "wrong-kind command[0].do"),
    (
        "{tick = 0, do = \"jump\", partition = \"A\"}",
        "unknown-key command[0].partition",
    ),
    ("{tick = 0, do = \"jump\"}", "out-of-range command[0].do"),
    (
        "{tick = 0, do = \"create\", name = \"N\", budget = 5, max = 101}",
        "out-of-range command[0].max",
    ),
    (
        "{tick = 0, do = \"modify\"}",
        "missing command[0].partition",
    ),
    (
        "{tick = 0, do = \"modify\", partition = \"A\"}",
        "missing command[0].budget",
    ),
    (
        "{tick = 0, do = \"set_parameters\"}",
        "missing command[0].window",
    ),
    (
        "{tick = 0, do = \"query_thread\", thread = \"z\"}",
        "unknown-name command[0].thread",
    ),
];

/// A beginning, a piece, how many copies of it stand there, the end, and the answer.
const COPIES: [(&str, &str, usize, &str, &str); 5] = [
    ("", "#", 1_048_576, "", "missing version"),
    (THREADS, "7, ", 1024, "]", "wrong-kind thread[0]"),
    (THREADS, THREAD, 1025, "]", "out-of-range thread"),
    (PROGRAM, "\"yield\", ", 255, "\"exit\"]}]", "read"),
    (
        PROGRAM,
        "\"yield\", ",
        256,
        "\"exit\"]}]",
        "out-of-range thread[0].program",
    ),
];

/// How deep the window of the two equal partitions is nested as an array, and the answer.
const NESTED: [(usize, &str); 2] = [(50, "wrong-kind window"), (1000, "not-toml -")];

fn push(rt: &impl Abort, text: &mut String, piece: &str) {
    text.push_str(piece).expect(rt, "memory");
}

/// The text with so many copies of a piece behind it.
fn push_copies(rt: &impl Abort, text: &mut String, piece: &str, count: usize) {
    for _ in 0..count {
        push(rt, text, piece);
    }
}

/// So many copies of a piece between two others.
fn copies(
    rt: &impl Abort,
    alloc: Global,
    before: &str,
    piece: &str,
    count: usize,
    after: &str,
) -> String {
    let mut text = String::new(alloc);
    push(rt, &mut text, before);
    push_copies(rt, &mut text, piece, count);
    push(rt, &mut text, after);
    text
}

/// The two equal partitions, where the first text is replaced by the second.
fn with(rt: &impl Abort, alloc: Global, old: &str, new: &str) -> String {
    TWO_EQUAL_PARTITIONS
        .replacen(alloc, old, new, 1)
        .expect(rt, "memory")
}

fn nested(rt: &impl Abort, alloc: Global, depth: usize) -> String {
    let opened = copies(rt, alloc, "window = ", "[", depth, "");
    let window = copies(rt, alloc, opened.as_str(), "]", depth, "");
    with(rt, alloc, "window = 10", window.as_str())
}

/// The two equal partitions with this command.
fn with_command(rt: &impl Abort, alloc: Global, command: &str) -> String {
    format!(in alloc; "{TWO_EQUAL_PARTITIONS}command = [{command}]\n").expect(rt, "memory")
}

// Each table is passed on, so that what is proved of its loop is free of its texts.
fn check_whole(rt: &impl Abort, alloc: Global, cases: &[(&[u8], &str)]) {
    for (text, answer) in cases {
        check(rt, alloc, text, answer);
    }
}

fn check_replaced(rt: &impl Abort, alloc: Global, cases: &[(&str, &str, &str)]) {
    for (old, new, answer) in cases {
        let text = with(rt, alloc, old, new);
        check(rt, alloc, text.as_bytes(), answer);
    }
}

fn check_commands(rt: &impl Abort, alloc: Global, cases: &[(&str, &str)]) {
    for (command, answer) in cases {
        let text = with_command(rt, alloc, command);
        check(rt, alloc, text.as_bytes(), answer);
    }
}

fn check_copies(rt: &impl Abort, alloc: Global, cases: &[(&str, &str, usize, &str, &str)]) {
    for (before, piece, count, after, answer) in cases {
        let text = copies(rt, alloc, before, piece, *count, after);
        check(rt, alloc, text.as_bytes(), answer);
    }
}

fn check_nested(rt: &impl Abort, alloc: Global, cases: &[(usize, &str)]) {
    for (depth, answer) in cases {
        let text = nested(rt, alloc, *depth);
        check(rt, alloc, text.as_bytes(), answer);
    }
}

#[test]
fn whole_texts_are_answered(rt: HostRuntime) {
    check_whole(&rt, rt.alloc(), &WHOLE);
}

#[test]
fn texts_with_something_replaced_are_answered(rt: HostRuntime) {
    check_replaced(&rt, rt.alloc(), &REPLACED);
}

#[test]
fn texts_with_a_command_are_answered(rt: HostRuntime) {
    check_commands(&rt, rt.alloc(), &COMMANDS);
}

#[test]
fn texts_with_many_copies_are_answered(rt: HostRuntime) {
    check_copies(&rt, rt.alloc(), &COPIES);
    check_nested(&rt, rt.alloc(), &NESTED);
}
