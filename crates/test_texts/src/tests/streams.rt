//! Runs of the sources and sinks: whole, with a fault in mid-stream, and without an end.
ghost use Rattle.std.specs.Prelude.{◌≤◌, None};

use aps_hints::WatchedSink;
use aps_io::{
    CalmSink, CalmSource, MemSink, MemSource, ReadAnswer, ReadRefusal, Sink, Source, StdSink,
    StdSource, WriteAnswer, WriteRefusal, read_all, write_all,
};
use std::alloc::Global;
use std::io::{self, ErrorKind, Read};
use std::process::Abort;

/// A copy of these bytes.
fn copy(rt: &impl Abort, alloc: Global, bytes: &[u8]) -> Vec<u8> {
    bytes.to_vec(alloc).expect(rt, "memory")
}

/// A source of `version = 1` whose second read fails.
fn failing_source(rt: &impl Abort, alloc: Global) -> MemSource {
    let fails = vec![in alloc; 1].expect(rt, "memory");
    MemSource::new(copy(rt, alloc, b"version = 1"), fails)
}

/// All bytes of a source, of which there are at most so many.
fn all_of<S: Source>(rt: &impl Abort, alloc: Global, source: &mut S, most: usize) -> Vec<u8>
    requires { most ≤ 1000 }
{
    read_all(alloc, source, most).expect(rt, "all")
}

/// Why a source isn't read to its end.
fn refusal_of<S: Source>(alloc: Global, source: &mut S, most: usize) -> Option<ReadRefusal>
    requires { most ≤ 1000 }
{
    read_all(alloc, source, most).err()
}

#[test]
fn a_source_is_read_to_its_end(rt: HostRuntime) {
    let mut fits = CalmSource::new(copy(&rt, rt.alloc(), b"version = 1"));
    let all = all_of(&rt, rt.alloc(), &mut fits, 11);
    assert!(rt; all.as_slice() == b"version = 1".as_slice());
}

#[test]
fn a_source_that_is_too_long_is_refused(rt: HostRuntime) {
    let mut long = CalmSource::new(copy(&rt, rt.alloc(), b"version = 1"));
    let refusal = refusal_of(rt.alloc(), &mut long, 10);
    assert!(rt; refusal == Some(ReadRefusal::TooLong));
}

fn read(source: &mut MemSource, into: &mut [u8; 7]) -> ReadAnswer {
    source.read(into)
}

#[test]
fn a_read_fails_in_mid_stream(rt: HostRuntime) {
    let mut source = failing_source(&rt, rt.alloc());
    let mut into = [0u8; 7];
    assert!(rt; read(&mut source, &mut into) == ReadAnswer::Got(7));
    assert!(rt; &into == b"version");
    assert!(rt; read(&mut source, &mut into) == ReadAnswer::Failed);
    assert!(rt; read(&mut source, &mut into) == ReadAnswer::Got(4));
    assert!(rt; &into == b" = 1ion");
    assert!(rt; read(&mut source, &mut into) == ReadAnswer::End);
}

#[test]
fn a_failing_read_is_told(rt: HostRuntime) {
    let mut source = failing_source(&rt, rt.alloc());
    let refusal = refusal_of(rt.alloc(), &mut source, 100);
    assert!(rt; refusal == Some(ReadRefusal::ReadFault));
}

/// Writes the text, or tells why it couldn't.
fn write<K: Sink>(sink: &mut K, text: &[u8]) -> Result<(), WriteRefusal> {
    write_all(sink, text)
}

/// A sink that has `> ` and whose second write fails.
fn failing_sink(rt: &impl Abort, alloc: Global) -> MemSink {
    let fails = vec![in alloc; 1].expect(rt, "memory");
    MemSink::new(copy(rt, alloc, b"> "), fails)
}

#[test]
fn a_write_fails_between_two_texts(rt: HostRuntime) {
    let mut sink = failing_sink(&rt, rt.alloc());
    assert!(rt; write(&mut sink, b"one") == Ok(()));
    assert!(rt; write(&mut sink, b"two") == Err(WriteRefusal::WriteFault));
    assert!(rt; write(&mut sink, b"three") == Ok(()));
    assert!(rt; sink.written() == b"> onethree".as_slice());
}

#[test]
fn a_watched_sink_knows_that_a_write_failed(rt: HostRuntime) {
    let mut sink = WatchedSink::new(failing_sink(&rt, rt.alloc()));
    assert!(rt; write(&mut sink, b"one") == Ok(()));
    assert!(rt; !sink.has_failed());
    assert!(rt; write(&mut sink, b"two") == Err(WriteRefusal::WriteFault));
    assert!(rt; write(&mut sink, b"three") == Ok(()));
    assert!(rt; sink.has_failed());
}

#[test]
fn a_calm_sink_takes_all(rt: HostRuntime) {
    let mut calm = CalmSink::new(Vec::new(rt.alloc()));
    assert!(rt; write(&mut calm, b"text") == Ok(()));
    assert!(rt; calm.written() == b"text".as_slice());
}

/// A source that gives one byte a call and never ends.
#[derive(Drop)]
struct Drip {
    calls: u64,
}

impl Source for Drip {
    ghost left = { λ _. None };

    ghost faults = { λ _. 0 };

    ghost reads = { λ s. s.calls };

    fn read(&mut self, into: &mut [u8]) -> ReadAnswer {
        self.calls = self.calls.saturating_add(1);
        into[0] = b'#';
        ReadAnswer::Got(1)
    }
}

#[test]
fn a_source_without_an_end_is_stopped(rt: HostRuntime) {
    let mut source = Drip { calls: 0 };
    let refusal = refusal_of(rt.alloc(), &mut source, 1000);
    assert!(rt; refusal == Some(ReadRefusal::TooLong));
    assert!(rt; source.calls == 1001);
}

/// A reader whose second read is an error.
#[derive(Drop)]
struct Stumbling {
    reads: u64,
}

impl Read for Stumbling {
    fn read(&mut self, buf: &mut [u8]) -> io::Result<usize> {
        self.reads = self.reads.saturating_add(1);
        if self.reads == 2 {
            return Err(io::Error::from(ErrorKind::Other));
        }
        if self.reads > 3 || buf.is_empty() {
            return Ok(0);
        }
        buf[0] = b'x';
        Ok(1)
    }
}

#[test]
fn a_reader_fails_in_mid_stream(rt: HostRuntime) {
    let mut source = StdSource::new(Stumbling { reads: 0 });
    let refusal = refusal_of(rt.alloc(), &mut source, 100);
    assert!(rt; refusal == Some(ReadRefusal::ReadFault));
    let rest = all_of(&rt, rt.alloc(), &mut source, 100);
    assert!(rt; rest.as_slice() == b"x".as_slice());
}

#[test]
fn nothing_stands_in_the_standard_input(rt: HostRuntime) {
    let mut empty = StdSource::new(rt.stdin());
    let all = all_of(&rt, rt.alloc(), &mut empty, 100);
    assert!(rt; all.is_empty());
}

#[test]
fn a_writer_takes_nothing_in_mid_stream(rt: HostRuntime) {
    let mut room = *b"......";
    let mut sink = StdSink::new(room.as_mut_slice());
    assert!(rt; write(&mut sink, b"text") == Ok(()));
    assert!(rt; write(&mut sink, b"again") == Err(WriteRefusal::WriteFault));
    assert!(rt; &room == b"textag");
}

#[test]
fn the_standard_output_takes_a_text(rt: HostRuntime) {
    let mut out = StdSink::new(rt.stdout());
    assert!(rt; write(&mut out, b"written\n") == Ok(()));
}
