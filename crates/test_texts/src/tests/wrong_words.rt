//! What is told of refused words, and of inputs that `apsview` refused: one worked line each.
use super::words::owned;
use aps_hints::{Given, Line, Program, ViewUsage, view_hint, view_usage_meant, wrong_hint};
use std::alloc::Global;
use std::process::Abort;

/// Words that `apsim` refuses, each with what is told of them.
const SIMULATOR: [(&[&str], &str); 14] = [
    (&["fly"], "\"fly\" is no command of apsim"),
    (
        &["shares"],
        "\"shares\" is a report of apsview, not of apsim",
    ),
    (
        &["x.toml"],
        "\"x.toml\" is no command of apsim; a file goes behind <: apsim solo < x.toml",
    ),
    (
        &["solo", "x.toml"],
        "\"x.toml\" is no option of apsim solo; a file goes behind <: apsim solo < x.toml",
    ),
    (
        &["solo", "--report", "latency"],
        "\"latency\" is a report of apsview, not of apsim",
    ),
    (
        &["solo", "--report=all"],
        "\"all\" is no value of --report; it takes summary, windows or journal",
    ),
    (
        &["run", "--order", "both"],
        "\"both\" is no value of --order; it takes free or fixed",
    ),
    (
        &["check", "--limit", "0"],
        "\"0\" is no value of --limit; it takes a number from 1 to 4000000",
    ),
    (
        &["solo", "--order=fixed"],
        "\"--order=fixed\" is no option of apsim solo",
    ),
    (
        &["solo", "--limit"],
        "--limit has no value; it takes a number from 1 to 4000000",
    ),
    (
        &["solo", "--limit=1", "--limit=2"],
        "--limit is given twice",
    ),
    (
        &["gen", "--seed", "1", "--cpus", "17"],
        "\"17\" is no value of --cpus; it takes a number from 1 to 16",
    ),
    (&["gen", "--seed", "1"], "--cpus is missing"),
    (&["gen", "x.toml"], "\"x.toml\" is no option of apsim gen"),
];

/// Words that `apsview` refuses, each with what is told of them.
const VIEWER: [(&[&str], &str); 9] = [
    (&["foo"], "\"foo\" is no report of apsview"),
    (&["solo"], "\"solo\" is a command of apsim, not of apsview"),
    (
        &["cycles", "x.toml"],
        "\"x.toml\" is no option of apsview cycles; a file goes behind <: apsview cycles < x.toml",
    ),
    (
        &["shares", "--limit", "--from"],
        "--limit has no value; it takes a number from 1 to 4000000",
    ),
    (
        &["shares", "--from", "1"],
        "\"--from\" is no option of apsview shares",
    ),
    (
        &["csv", "--from=5", "--to", "5"],
        "--from is not below --to",
    ),
    (&["explain", "--thread", "t"], "--at is missing"),
    (
        &["explain", "--thread", "-a", "--at", "0"],
        "--thread has no value; it takes the name of a thread, behind = where it begins with -",
    ),
    (
        &["explain", "--thread=t", "--at", "x"],
        "\"x\" is no value of --at; it takes a number from 0 to 10000000000000",
    ),
];

/// This is told of refused words.
fn check(rt: &impl Abort, alloc: Global, program: Program, words: &[&str], hint: &str) {
    let words = owned(rt, alloc, words);
    let told = wrong_hint(alloc, program, &words).expect(rt, "memory");
    let line = told.expect(rt, "a hint");
    assert_eq!(rt; line.as_bytes(), hint.as_bytes());
}

// The table is passed on, so that what is proved of the loop is free of its words.
fn check_all(rt: &impl Abort, alloc: Global, program: Program, cases: &[(&[&str], &str)]) {
    for (words, hint) in cases {
        check(rt, alloc, program, words, hint);
    }
}

#[test]
fn the_first_wrong_word_is_told(rt: HostRuntime) {
    check_all(&rt, rt.alloc(), Program::Simulator, &SIMULATOR);
    check_all(&rt, rt.alloc(), Program::Viewer, &VIEWER);
}

#[test]
fn of_no_words_the_usage_alone_is_told(rt: HostRuntime) {
    let none = Vec::new(rt.alloc());
    let told = wrong_hint(rt.alloc(), Program::Viewer, &none).expect(&rt, "memory");
    assert!(rt; told.is_none());
    assert!(rt; view_usage_meant(&none) == ViewUsage::All);
}

#[test]
fn the_usage_of_the_report_is_told(rt: HostRuntime) {
    let words = owned(&rt, rt.alloc(), &["csv", "--form", "1"]);
    let usage = "usage: apsview csv [--from TICK] [--to TICK] [--limit N] < INPUT
  TICK: 0 to 1000000; N: 1 to 4000000 entries, 1000000 where it isn't given
";
    assert!(rt; view_usage_meant(&words).text() == usage);
}

const SLEEPER: &str = "version = 1\ncpus = 1\nticks = 3\n\
    thread = [{name = \"a\", program = [\"sleep 1000000\", \"repeat\"]}]\n";

/// Inputs that `apsview` refuses where the thread `x` is asked for, each with what is told of them.
const INPUTS: [(&[&str], &str); 4] = [
    (
        &["version = 3\n"],
        "version (line 1, column 1): 3 is out of range; wanted is 1 or 2",
    ),
    (
        &["version = 3\n", "--- journal\n", "0 0 0 - - - - 0 - -\n"],
        "version (line 1, column 1): 3 is out of range; wanted is 1 or 2",
    ),
    (
        &[SLEEPER, "--- journal\n", "0 0 zero\n"],
        "a line of a journal is CPU FROM TO RAN BILLED CRITICAL DONE PICKED STARVED FLAGGED",
    ),
    (
        &[SLEEPER, "--- journal\n", "0 0 0 - - - - 0 - -\n"],
        "--thread: \"x\" names nothing; known are \"a\"",
    ),
];

/// What is told where the input is these texts, one after the other.
fn told_of_input(rt: &impl Abort, alloc: Global, texts: &[&str], is_whole: bool) -> Option<Line> {
    let mut bytes = Vec::new(alloc);
    for text in texts {
        bytes
            .extend_from_slice(text.as_bytes())
            .expect(rt, "memory");
    }
    let given = Given {
        bytes: &bytes,
        is_whole,
    };
    view_hint(alloc, given, Some("x")).expect(rt, "memory")
}

fn check_inputs(rt: &impl Abort, alloc: Global, cases: &[(&[&str], &str)]) {
    for (texts, hint) in cases {
        let line = told_of_input(rt, alloc, texts, true).expect(rt, "a hint");
        assert_eq!(rt; line.as_bytes(), hint.as_bytes());
    }
}

#[test]
fn an_input_that_cannot_be_viewed_is_told(rt: HostRuntime) {
    check_inputs(&rt, rt.alloc(), &INPUTS);
    let told = told_of_input(&rt, rt.alloc(), &["version = 3\n"], false);
    assert!(rt; told.is_none());
}
