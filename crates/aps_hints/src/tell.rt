//! What a person is told on standard error.
use crate::line::Line;
use crate::watched::WatchedSink;
use crate::wrong::Program;
use crate::wrong_told::wrong_hint;
use aps_io::Sink;
use std::alloc::Global;
use std::io;

/// What is told where standard input can't be read.
const READ_FAULT: &str = "standard input can't be read; it may be a directory";

/// What is told where standard output didn't take what was written.
const WRITE_FAULT: &str =
    "standard output didn't take the whole text; the disk may be full, or nobody reads it";

/// Writes a line.
pub fn tell_line<R: Eprint>(rt: &R, line: &Line) -> io::Result<()> {
    match std::str::from_utf8(line.as_bytes()) {
        Ok(text) => eprintln!(rt; "{text}"),
        Err(_) => Ok(()),
    }
}

/// Writes what is wrong with words that the program refused, and this usage behind it.
pub fn tell_words<R: Eprint>(
    rt: &R,
    alloc: Global,
    program: Program,
    words: &[String],
    usage: &str,
) -> io::Result<()> {
    if let Ok(Some(line)) = wrong_hint(alloc, program, words) {
        tell_line(rt, &line)?;
    }
    eprint!(rt; "{usage}")
}

/// Writes what may be wrong with a source that couldn't be read.
pub fn tell_read_fault<R: Eprint>(rt: &R) -> io::Result<()> {
    eprintln!(rt; "{READ_FAULT}")
}

/// Writes what may be wrong with a sink, where a write failed.
pub fn tell_write_fault<R: Eprint, K: Sink>(rt: &R, sink: &WatchedSink<K>) -> io::Result<()> {
    if !sink.has_failed() {
        return Ok(());
    }
    eprintln!(rt; "{WRITE_FAULT}")
}
