//! What a person is told of a refusal on standard error. No status and no line of standard output depends on it.
use aps_calls::status::Status;
use aps_hints::{
    Document, Given, Line, Program, check_hint, tell_line, tell_read_fault, tell_words, whole_hint,
    words_hint,
};
use aps_model::NoMemory;
use aps_words::{Command, command_of};
use std::alloc::Global;
use std::io;

/// Writes what helps a person where words or an input were refused, or the source failed; nothing under any other status,
/// and nothing where standard error takes nothing.
pub fn tell_person<R: Eprint>(
    rt: &R,
    alloc: Global,
    words: &[String],
    status: u8,
    given: Given<'_>,
) -> io::Result<()> {
    if status == Status::WordsRefused.code() {
        return tell_words(rt, alloc, Program::Simulator, words, words_hint(words));
    }
    if status == Status::ReadFault.code() {
        return tell_read_fault(rt);
    }
    if status != Status::InputRefused.code() {
        return Ok(());
    }
    match input_hint(alloc, words, given)? {
        Some(line) => tell_line(rt, &line),
        None => Ok(()),
    }
}

/// What is told of an input that the command of these words refused.
pub fn input_hint(
    alloc: Global,
    words: &[String],
    given: Given<'_>,
) -> Result<Option<Line>, NoMemory> {
    match command_of(alloc, words) {
        Ok(Command::Check { .. }) => check_hint(alloc, given),
        Ok(Command::Admit) => whole_hint(alloc, given, Document::Demands),
        Ok(_) => whole_hint(alloc, given, Document::Scenario),
        Err(_) => Ok(None),
    }
}
