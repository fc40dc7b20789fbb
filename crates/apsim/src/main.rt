//! The program: it reads a scenario from standard input, runs it, and writes what came of it to standard output.
#![tactic(auto)]

use aps_calls::status::Status;
use aps_cpu::{ClockGate, Gate};
use aps_hints::{Given, KeptSource, WatchedSink, tell_write_fault};
use aps_io::{Sink, Source, StdSink, StdSource, words_of};
use aps_top::hint::tell_person;
use aps_top::top::top;
use std::alloc::Global;
use std::process::ExitCode;
use std::sync::Wait;
use std::thread::Threads;

fn main(rt: HostRuntime) -> ExitCode {
    let alloc = rt.alloc();
    let Ok(words) = words_of(&rt) else {
        return ExitCode::from(Status::NoMemory.code());
    };
    // what it gives is kept for a hint on standard error, where it is refused
    let mut source = KeptSource::new(alloc, StdSource::new(rt.stdin()));
    // standard output takes each piece at once, so that no fault comes after the last answer
    let mut sink = WatchedSink::new(StdSink::new(rt.stdout()));
    let gate = ClockGate::new(&rt);
    let status = status_of(&rt, alloc, &words, &mut source, &mut sink, &gate);
    let given = Given {
        bytes: source.kept(),
        is_whole: !source.is_full(),
    };
    // hints for a person; nothing depends on them
    let _ = tell_person(&rt, alloc, &words, status, given);
    let _ = tell_write_fault(&rt, &sink);
    ExitCode::from(status)
}

/// Makes the call, and answers its status. The history isn't wanted here.
fn status_of<R: Threads + Wait + Sync, S: Source, K: Sink, G: Gate + Sync>(
    rt: &R,
    alloc: Global,
    words: &[String],
    source: &mut S,
    sink: &mut K,
    gate: &G,
) -> u8 {
    top(rt, alloc, words, source, sink, gate).status
}
