//! Lists of words that ask for a report.
use super::words::owned;
use aps_model::Name;
use aps_words::WordsRefusal;
use std::alloc::Global;
use std::process::Abort;
use view_words::{Asked, Picture, Report, Ticks, Trace, asked_of};

/// What these words ask for.
fn read(rt: &impl Abort, alloc: Global, words: &[&str]) -> Result<Asked, WordsRefusal> {
    let words = owned(rt, alloc, words);
    asked_of(alloc, &words)
}

/// What is asked for without `--limit`.
fn usual(report: Report) -> Asked {
    Asked {
        report,
        limit: 1_000_000,
    }
}

const LAST: Ticks = Ticks {
    from: 999_999,
    to: Some(1_000_000),
};

/// These words ask for this.
fn check(rt: &impl Abort, alloc: Global, words: &[&str], asked: Asked) {
    assert!(rt; read(rt, alloc, words) == Ok(asked));
}

#[test]
fn these_words_ask_for_a_report(rt: HostRuntime) {
    let alloc = rt.alloc();
    check(&rt, alloc, &["cycles"], usual(Report::Cycles));
    check(&rt, alloc, &["shares"], usual(Report::Shares));
    let trace = Trace::Gtkw;
    check(&rt, alloc, &["gtkw"], usual(Report::Trace { trace }));
    let few = Asked {
        report: Report::Latency,
        limit: 7,
    };
    check(&rt, alloc, &["latency", "--limit=7"], few);
}

#[test]
fn these_words_name_ticks(rt: HostRuntime) {
    let alloc = rt.alloc();
    let all = Ticks { from: 0, to: None };
    check(&rt, alloc, &["csv"], usual(Report::Csv { ticks: all }));
    let words = ["csv", "--to", "1000000", "--from=999999"];
    check(&rt, alloc, &words, usual(Report::Csv { ticks: LAST }));
    let threads = Report::Picture {
        picture: Picture::Threads,
        ticks: LAST,
    };
    let words = ["threads", "--to", "1000000", "--from=999999"];
    check(&rt, alloc, &words, usual(threads));
}

/// These words ask why the thread that this text names runs at the last moment, or doesn't.
fn check_explained(rt: &impl Abort, alloc: Global, words: &[&str], text: &str) {
    let thread = Name::new(text.as_bytes()).ok();
    let at = 10_000_000_000_000;
    check(rt, alloc, words, usual(Report::Explain { thread, at }));
}

#[test]
fn a_thread_is_named_by_any_text(rt: HostRuntime) {
    for text in ["a", "-", "", "no name"] {
        let words = ["explain", "--at", "10000000000000", "--thread", text];
        check_explained(&rt, rt.alloc(), &words, text);
    }
    let words = ["explain", "--thread=-a", "--at=10000000000000"];
    check_explained(&rt, rt.alloc(), &words, "-a");
}
