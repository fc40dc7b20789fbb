//! Makes worked calls of both programs, and says of each how it ended, and whether it wrote the text that was worked out.
//!
//! Each line of standard input is such a call: its words, what it reads, and what it has to write, as
//! `solo --report windows < two_equal.toml = two_equal.windows`. A call whose first word is `view` is one of `apsview`, all others are of
//! `apsim`. Files lie where the program runs. The input may have several pieces, as `two_equal.toml+calls/separator`, and many copies of
//! one, as `calls/sign*20`. A call behind `|` reads what the one before it wrote; one behind `&` what the one before it read, and behind
//! that, as a journal, what it wrote. Where no text was worked out, only the end is said.
#![tactic(auto)]

use aps_io::{CalmSink, CalmSource};
use aps_top::top::calm_top;
use std::alloc::{AllocError, Global};
use std::process::ExitCode;
use std::{fs, io};
use view_top::calm::calm_top as calm_view;

/// What stands between a scenario and a journal.
const SEPARATOR: &[u8] = b"--- journal\n";

/// What a call gave: its status, how many entries its history has, if there is one, and what it wrote.
#[derive(Drop)]
struct Told {
    status: u8,
    entries: Option<usize>,
    text: Vec<u8>,
}

fn words_of(alloc: Global, text: &str) -> Result<Vec<String>, AllocError> {
    let mut words = Vec::new(alloc);
    for word in text.split_whitespace() {
        words.push(word.to_string(alloc)?)?;
    }
    Ok(words)
}

/// The words behind `view`, if that is the first one.
fn view_of(words: &[String]) -> Option<&[String]> {
    match words {
        [first, view @ ..] if first.as_str() == "view" => Some(view),
        _ => None,
    }
}

/// How a call with these words ends: its status, and how many entries its history has, if it hands one back.
fn end_of(
    alloc: Global,
    words: &[String],
    source: &mut CalmSource,
    sink: &mut CalmSink,
) -> (u8, Option<usize>) {
    if let Some(view) = view_of(words) {
        return (calm_view(alloc, view, source, sink), None);
    }
    let ended = calm_top(alloc, words, source, sink);
    let entries = ended
        .history
        .as_ref()
        .map(|history| history.entries().len());
    (ended.status, entries)
}

/// What a call with these words gives over this input.
fn call(alloc: Global, words: &str, input: Vec<u8>) -> Result<Told, AllocError> {
    let words = words_of(alloc, words)?;
    let mut source = CalmSource::new(input);
    let mut sink = CalmSink::new(Vec::new(alloc));
    let (status, entries) = end_of(alloc, &words, &mut source, &mut sink);
    let text = sink.written().to_vec(alloc)?;
    Ok(Told {
        status,
        entries,
        text,
    })
}

/// What a call with these words gives over this input and the journal that the call with the first words writes of it.
fn judged(alloc: Global, run: &str, words: &str, input: Vec<u8>) -> Result<Told, AllocError> {
    let mut whole = input.to_vec(alloc)?;
    whole.extend_from_slice(SEPARATOR)?;
    whole.extend_from_slice(&call(alloc, run, input)?.text)?;
    call(alloc, words, whole)
}

/// What the last of these calls gives, each of which reads what the one before it wrote, and the first one the input.
fn last_of(alloc: Global, calls: &str, input: Vec<u8>) -> Result<Told, AllocError> {
    let mut told = Told {
        status: 0,
        entries: None,
        text: input,
    };
    for words in calls.split('|') {
        told = match words.split_once('&') {
            Some((run, words)) => judged(alloc, run, words, told.text)?,
            None => call(alloc, words, told.text)?,
        };
    }
    Ok(told)
}

/// The name of a piece, and how many copies there are of it.
fn piece_of(text: &str) -> (&str, usize) {
    match text.split_once('*') {
        Some((name, count)) => (name, count.parse::<usize>().unwrap_or(0)),
        None => (text, 1),
    }
}

fn push_copies(input: &mut Vec<u8>, piece: &[u8], count: usize) -> Result<(), AllocError> {
    for _ in 0..count {
        input.extend_from_slice(piece)?;
    }
    Ok(())
}

/// The input that these pieces are.
fn input_of(rt: &HostRuntime, pieces: &str) -> io::Result<Vec<u8>> {
    let mut input = Vec::new(rt.alloc());
    for piece in pieces.split('+') {
        let (name, count) = piece_of(piece);
        push_copies(&mut input, &fs::read(rt, name)?, count)?;
    }
    Ok(input)
}

/// What the calls give over the input that is named behind them, if one is.
fn told_of(rt: &HostRuntime, calls: &str) -> io::Result<Told> {
    let Some((words, pieces)) = calls.split_once(" < ") else {
        return Ok(last_of(rt.alloc(), calls, Vec::new(rt.alloc()))?);
    };
    let input = input_of(rt, pieces)?;
    Ok(last_of(rt.alloc(), words, input)?)
}

/// Says how a call ended, and what of its text.
fn say(rt: &HostRuntime, line: &str, told: &Told, text: &str) -> io::Result<()> {
    let status = told.status;
    match told.entries {
        Some(entries) => println!(rt; "{line}: status {status}, {entries} entries{text}"),
        None => println!(rt; "{line}: status {status}, no history{text}"),
    }
}

/// Makes the calls of a line, and says how the last one ended, and whether it wrote the text that was worked out.
fn compare(rt: &HostRuntime, line: &str) -> io::Result<()> {
    let Some((calls, name)) = line.split_once(" = ") else {
        return say(rt, line, &told_of(rt, line)?, "");
    };
    let worked_out = fs::read(rt, name)?;
    let told = told_of(rt, calls)?;
    let text = if told.text == worked_out {
        ", as worked out"
    } else {
        ", not as worked out"
    };
    say(rt, line, &told, text)
}

fn compare_all(rt: &HostRuntime) -> io::Result<()> {
    for line in rt.lines(rt.alloc()) {
        compare(rt, &line?)?;
    }
    Ok(())
}

fn main(rt: HostRuntime) -> ExitCode {
    match compare_all(&rt) {
        Ok(()) => ExitCode::SUCCESS,
        Err(_) => ExitCode::FAILURE,
    }
}
