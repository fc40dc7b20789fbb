//! What a person is told of a refusal on standard error. No status and no line of standard output depends on it.
use aps_calls::status::Status;
use aps_hints::{
    Given, Line, Program, tell_line, tell_read_fault, tell_words, value_given, view_hint,
    view_usage_meant,
};
use aps_model::NoMemory;
use std::alloc::Global;
use std::io;

/// Writes what helps a person where words or an input were refused, or the source failed; nothing under any other status,
/// and nothing where standard error takes nothing.
pub fn tell_person<R: Eprint>(
    rt: &R,
    alloc: Global,
    words: &[String],
    status: u8,
    given: Given<'_>,
) -> io::Result<()> {
    if status == Status::WordsRefused.code() {
        let usage = view_usage_meant(words).text();
        return tell_words(rt, alloc, Program::Viewer, words, usage);
    }
    if status == Status::ReadFault.code() {
        return tell_read_fault(rt);
    }
    if status != Status::InputRefused.code() {
        return Ok(());
    }
    match input_hint(alloc, words, given)? {
        Some(line) => tell_line(rt, &line),
        None => Ok(()),
    }
}

/// What is told of an input that the report of these words refused.
pub fn input_hint(
    alloc: Global,
    words: &[String],
    given: Given<'_>,
) -> Result<Option<Line>, NoMemory> {
    view_hint(alloc, given, value_given(words, "thread"))
}
