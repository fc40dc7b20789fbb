//! Whole calls of the program in memory: what they write, the statuses, and what a person is told.
use aps_hints::Given;
use aps_io::{CalmSink, CalmSource};
use std::alloc::{AllocError, Global};
use std::test::Fail;
use view_top::calm::calm_top;
use view_top::hint::input_hint;

const SLEEPER: &str = r#"version = 1
cpus = 1
window = 8
ticks = 3
thread = [{name = "a", program = ["run 400000", "sleep 1000000", "repeat"]}]
"#;

const SEPARATOR: &str = "--- journal\n";

const SLEEPER_JOURNAL: &str = "0 0 0 - - - - 0 - -
0 0 400000 0 0 - run - 0 -
0 400000 1000000 - - - - - 0 -
0 1000000 2000000 - - - - 0 - -
0 2000000 2001000 0 0 - repeat 0 - -
0 2001000 2401000 0 0 - run - 0 -
0 2401000 3000000 - - - - - - -
";

const TITLES: &str = "thread,begin_ns,end_ns,running_ns,ready_ns,calling_ns,receiving_ns\n";

const SLEEPER_CYCLES: &str = "thread,begin_ns,end_ns,running_ns,ready_ns,calling_ns,receiving_ns
a,0,400000,400000,0,0,0
a,2000000,2401000,401000,0,0,0
";

const TWO_PROCESSORS: &str = r#"version = 1
cpus = 2
window = 8
ticks = 3
thread = [{name = "a", program = ["run forever"]}]
"#;

/// These words, as a list that is owned.
fn owned(alloc: Global, words: &[&str]) -> Result<Vec<String>, AllocError> {
    let mut owned = Vec::new(alloc);
    for word in words {
        owned.push(word.to_string(alloc)?)?;
    }
    Ok(owned)
}

/// The status of a call with these words over these texts, one after the other, and the sink with what it writes.
fn called(alloc: Global, words: &[&str], texts: &[&str]) -> Result<(u8, CalmSink), AllocError> {
    let owned = owned(alloc, words)?;
    let mut input = Vec::new(alloc);
    for text in texts {
        input.extend_from_slice(text.as_bytes())?;
    }
    let mut source = CalmSource::new(input);
    let mut sink = CalmSink::new(Vec::new(alloc));
    let status = calm_top(alloc, &owned, &mut source, &mut sink);
    Ok((status, sink))
}

#[test]
fn a_journal_is_viewed_as_the_run_is(rt: HostRuntime) -> Result<(), Fail> {
    let (status, sink) = called(rt.alloc(), &["cycles"], &[SLEEPER])?;
    assert_eq!(rt; status, 0);
    assert_eq!(rt; sink.written(), SLEEPER_CYCLES.as_bytes());
    let (status, sink) = called(
        rt.alloc(),
        &["cycles"],
        &[SLEEPER, SEPARATOR, SLEEPER_JOURNAL],
    )?;
    assert_eq!(rt; status, 0);
    assert_eq!(rt; sink.written(), SLEEPER_CYCLES.as_bytes());
    Ok(())
}

#[test]
fn a_journal_is_judged_in_free_order(rt: HostRuntime) -> Result<(), Fail> {
    let second_first = "1 0 0 - - - - 0 - -\n";
    let (status, sink) = called(
        rt.alloc(),
        &["cycles"],
        &[TWO_PROCESSORS, SEPARATOR, second_first],
    )?;
    assert_eq!(rt; status, 0);
    assert_eq!(rt; sink.written(), TITLES.as_bytes());
    Ok(())
}

#[test]
fn what_cannot_be_viewed_is_told(rt: HostRuntime) -> Result<(), Fail> {
    let other_pick = "0 0 0 - - - - - - -\n";
    let cases: [(&[&str], &[&str], u8, &str); 5] = [
        (&["cycles", "all"], &[SLEEPER], 1, "aps: words refused\n"),
        (
            &["cycles"],
            &[SLEEPER, SEPARATOR, other_pick],
            9,
            "check breaks 0 picked\n",
        ),
        (
            &["cycles", "--limit=3"],
            &[SLEEPER, SEPARATOR, SLEEPER_JOURNAL],
            9,
            "check breaks 3 after\n",
        ),
        (
            &["cycles"],
            &[SLEEPER, SEPARATOR, "0 0 zero\n"],
            2,
            "aps: scenario refused: bad-journal 1:5\n",
        ),
        (
            &["cycles"],
            &[SEPARATOR],
            2,
            "aps: scenario refused: missing version\n",
        ),
    ];
    for (words, texts, wanted, line) in cases {
        let (status, sink) = called(rt.alloc(), words, texts)?;
        assert_eq!(rt; status, wanted);
        assert_eq!(rt; sink.written(), line.as_bytes());
    }
    Ok(())
}

#[test]
fn a_picture_behind_the_end_is_refused(rt: HostRuntime) -> Result<(), Fail> {
    for picture in ["timeline", "threads", "usage"] {
        let (status, sink) = called(rt.alloc(), &[picture, "--from=3"], &[SLEEPER])?;
        assert_eq!(rt; status, 2);
        assert_eq!(rt;
            sink.written(),
            b"aps: scenario refused: out-of-range --from\n".as_slice()
        );
        let (status, sink) = called(rt.alloc(), &[picture, "--from=2"], &[SLEEPER])?;
        assert_eq!(rt; status, 0);
        assert!(rt; sink.written().starts_with(b"<svg"));
    }
    Ok(())
}

#[test]
fn a_thread_that_is_not_there_is_refused(rt: HostRuntime) -> Result<(), Fail> {
    let words = ["explain", "--thread=zed", "--at=0"];
    let (status, sink) = called(rt.alloc(), &words, &[SLEEPER])?;
    assert_eq!(rt; status, 2);
    assert_eq!(rt;
        sink.written(),
        b"aps: scenario refused: unknown-name --thread\n".as_slice()
    );
    Ok(())
}

/// What a person is told of this input, where a call with these words refused it.
fn hinted(alloc: Global, words: &[&str], input: &str) -> Result<Vec<u8>, AllocError> {
    let words = owned(alloc, words)?;
    let given = Given {
        bytes: input.as_bytes(),
        is_whole: true,
    };
    let mut told = Vec::new(alloc);
    if let Some(line) = input_hint(alloc, &words, given)? {
        told.extend_from_slice(line.as_bytes())?;
    }
    Ok(told)
}

#[test]
fn a_refused_input_is_told(rt: HostRuntime) -> Result<(), Fail> {
    let cases: [(&[&str], &str, &str); 3] = [
        (
            &["explain", "--thread=x", "--at=0"],
            SLEEPER,
            "--thread: \"x\" names nothing; known are \"a\"",
        ),
        (
            &["explain", "--at", "0", "--thread", "b c"],
            SLEEPER,
            "--thread: \"b c\" names nothing; known are \"a\"",
        ),
        (
            &["cycles"],
            "version = 1\ncpus = 17\n",
            "cpus (line 2, column 1): 17 is out of range; wanted is a number from 1 to 16",
        ),
    ];
    for (words, input, line) in cases {
        let told = hinted(rt.alloc(), words, input)?;
        assert_eq!(rt; told.as_slice(), line.as_bytes());
    }
    Ok(())
}
