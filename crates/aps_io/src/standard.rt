//! A source and a sink over std's reader and writer.
ghost use Rattle.std.specs.Prelude.{◌≡◌, ◌≢◌, ◌<◌, length};
ghost use Rattle.aps_io.specs.Bytes.{Reads, ReadCause, Writes, WriteCause};
ghost use Rattle.aps_io.specs.Scripted.{faults_after_read, faults_after_write};
ghost use Rattle.aps_io.specs.declared.sink.WriteAnswer.TheVariants.{Failed, NoMemory};

use crate::{ReadAnswer, Sink, Source, WriteAnswer};
use std::io::{Read, Write};

/// A source that reads from `reader` and counts its errors.
#[derive(Drop)]
pub struct StdSource<R: Read> {
    reader: R,
    faults: u64,
}

/// A sink that writes to `writer` and counts its errors. A writer that takes nothing is at fault
/// too. A writer that keeps bytes back hides a later fault, so give it one without a buffer.
#[derive(Drop)]
pub struct StdSink<W: Write> {
    writer: W,
    faults: u64,
}

impl<R: Read> StdSource<R> {
    /// A source without a fault so far.
    pub fn new(reader: R) -> StdSource<R>
        ensures reader { result.reader ≡ reader }
        ensures faults { result.faults ≡ 0 }
    {
        StdSource { reader, faults: 0 }
    }
}

impl<R: Read> Source for StdSource<R> {
    ghost left = { λ s. R.remaining s.reader };

    ghost faults = { λ s. s.faults };

    /// One read of the reader. Its error raises the count.
    fn read(&mut self, into: &mut [u8]) -> ReadAnswer
        requires { 0 < length into.old }
        ensures bytes { Reads (R.remaining self.old.reader) (R.remaining self.new.reader) result into.new }
        ensures cause { ReadCause self.old.faults self.new.faults result }
        ensures faults { self.new.faults ≡ faults_after_read self.old.faults result }
    {
        match self.reader.read(into) {
            Ok(0) => ReadAnswer::End,
            Ok(n) => ReadAnswer::Got(n),
            Err(_) => {
                self.faults = self.faults.saturating_add(1);
                ReadAnswer::Failed
            }
        }
    }
}

impl<W: Write> StdSink<W> {
    /// A sink without a fault so far.
    pub fn new(writer: W) -> StdSink<W>
        ensures writer { result.writer ≡ writer }
        ensures faults { result.faults ≡ 0 }
    {
        StdSink { writer, faults: 0 }
    }
}

impl<W: Write> Sink for StdSink<W> {
    ghost written = { λ s. W.contents s.writer };

    ghost faults = { λ s. s.faults };

    /// One write to the writer. Its error, and its taking nothing, raise the count.
    fn write(&mut self, piece: &[u8]) -> WriteAnswer
        requires { 0 < length piece.now }
        ensures bytes { Writes (W.contents self.old.writer) (W.contents self.new.writer) result piece.now }
        ensures fault { WriteCause self.old.faults self.new.faults result Failed }
        ensures shortage { WriteCause 0 0 result NoMemory }
        ensures grows_nothing { result ≢ NoMemory }
        ensures faults { self.new.faults ≡ faults_after_write self.old.faults result }
    {
        match self.writer.write(piece) {
            Ok(n) if n > 0 => WriteAnswer::Wrote(n),
            _ => {
                self.faults = self.faults.saturating_add(1);
                WriteAnswer::Failed
            }
        }
    }
}
