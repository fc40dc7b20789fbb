//! The program: reports of a history for who looks at it. It reads a scenario from standard input and runs it in fixed order,
//! or reads a scenario with a journal and judges that, and writes a report of the history to standard output.
#![tactic(auto)]

use aps_calls::status::Status;
use aps_hints::{Given, KeptSource, WatchedSink, tell_write_fault};
use aps_io::{StdSink, StdSource, words_of};
use std::process::ExitCode;
use view_top::hint::tell_person;
use view_top::top::top;

fn main(rt: HostRuntime) -> ExitCode {
    let alloc = rt.alloc();
    let Ok(words) = words_of(&rt) else {
        return ExitCode::from(Status::NoMemory.code());
    };
    // what it gives is kept for a hint on standard error, where it is refused
    let mut source = KeptSource::new(alloc, StdSource::new(rt.stdin()));
    // standard output takes each piece at once, so that no fault comes after the last answer
    let mut sink = WatchedSink::new(StdSink::new(rt.stdout()));
    let status = top(alloc, &words, &mut source, &mut sink);
    let given = Given {
        bytes: source.kept(),
        is_whole: !source.is_full(),
    };
    // hints for a person; nothing depends on them
    let _ = tell_person(&rt, alloc, &words, status, given);
    let _ = tell_write_fault(&rt, &sink);
    ExitCode::from(status)
}
