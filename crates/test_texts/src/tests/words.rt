//! Lists of words that are commands, and lists that are none.
use aps_model::Order;
use aps_words::{Command, Report, WordsRefusal, command_of};
use std::alloc::Global;
use std::process::Abort;

/// These words, as a list that is owned.
pub fn owned(rt: &impl Abort, alloc: Global, words: &[&str]) -> Vec<String> {
    let mut owned = Vec::new(alloc);
    for word in words {
        let word = word.to_string(alloc).expect(rt, "memory");
        owned.push(word).expect(rt, "memory");
    }
    owned
}

/// The command that these words are.
fn read(rt: &impl Abort, alloc: Global, words: &[&str]) -> Result<Command, WordsRefusal> {
    let words = owned(rt, alloc, words);
    command_of(alloc, &words)
}

/// Words that are no command.
const REFUSED: [&[&str]; 44] = [
    &[],
    &[""],
    &["fly"],
    &["help"],
    &["--help"],
    &["-h"],
    &["--version"],
    &["solo", "solo"],
    &["solo", ""],
    &["solo", "help"],
    &["solo", "--help"],
    &["solo", "-h"],
    &["solo", "--version"],
    &["solo", "--"],
    &["solo", "--limit", "--"],
    &["solo", "--limit", "0"],
    &["solo", "--limit=007"],
    &["solo", "--limit"],
    &["solo", "--limit="],
    &["solo", "--limit", ""],
    &["solo", "--limit", "+7"],
    &["solo", "--limit", "-7"],
    &["solo", "--limit", "4000001"],
    &["solo", "--limit", "18446744073709551617"],
    &["solo", "--limit", "7", "8"],
    &["solo", "-l", "7"],
    &["solo", "--lim", "7"],
    &["solo", "--report", "Summary"],
    &["solo", "--report", "summary", "--report", "windows"],
    &["solo", "--limit=7", "--limit", "7"],
    &["solo", "--order", "free"],
    &["run", "--order=both"],
    &["upgrade", ""],
    &["upgrade", "--"],
    &["upgrade", "--limit", "7"],
    &["admit", ""],
    &["admit", "--order=free"],
    &["check", "--report", "journal"],
    &["check", "--order=both"],
    &["check", "--limit=0"],
    &["check", "journal"],
    &["gen", "--seed", "7", "--cpus", "8", "--partitions", "12"],
    &[
        "gen",
        "--seed=7",
        "--cpus=17",
        "--partitions=12",
        "--ticks=5",
    ],
    &[
        "gen",
        "--seed=7",
        "--cpus=8",
        "--partitions=33",
        "--ticks=5",
    ],
];

// The table is passed on, so that what is proved of the loop is free of its texts.
fn check_refused(rt: &impl Abort, alloc: Global, cases: &[&[&str]]) {
    for words in cases {
        assert!(rt; read(rt, alloc, words) == Err(WordsRefusal::Words));
    }
}

#[test]
fn these_words_are_no_command(rt: HostRuntime) {
    check_refused(&rt, rt.alloc(), &REFUSED);
}

/// Words, each with the command that they are.
const COMMANDS: [(&[&str], Command); 9] = [
    (
        &["solo"],
        Command::Solo {
            report: Report::Summary,
            limit: 1_000_000,
        },
    ),
    (
        &["solo", "--limit=4000000", "--report", "windows"],
        Command::Solo {
            report: Report::Windows,
            limit: 4_000_000,
        },
    ),
    (
        &["run", "--limit", "7"],
        Command::Run {
            order: Order::Free,
            report: Report::Summary,
            limit: 7,
        },
    ),
    (
        &["run", "--report=journal", "--order=fixed"],
        Command::Run {
            order: Order::Fixed,
            report: Report::Journal,
            limit: 1_000_000,
        },
    ),
    (
        &[
            "gen",
            "--ticks=1000000",
            "--partitions",
            "32",
            "--cpus=16",
            "--seed",
            "0",
        ],
        Command::Gen {
            seed: 0,
            cpus: 16,
            partitions: 32,
            ticks: 1_000_000,
        },
    ),
    (&["upgrade"], Command::Upgrade),
    (&["admit"], Command::Admit),
    (
        &["check"],
        Command::Check {
            order: Order::Free,
            limit: 1_000_000,
        },
    ),
    (
        &["check", "--limit=7", "--order", "fixed"],
        Command::Check {
            order: Order::Fixed,
            limit: 7,
        },
    ),
];

fn check_commands(rt: &impl Abort, alloc: Global, cases: &[(&[&str], Command)]) {
    for (words, command) in cases {
        assert!(rt; read(rt, alloc, words) == Ok(*command));
    }
}

#[test]
fn these_words_are_commands(rt: HostRuntime) {
    check_commands(&rt, rt.alloc(), &COMMANDS);
}
