//! A source and a sink in memory that never fail.
ghost use Rattle.std.specs.Prelude.{◌≡◌, ◌≤◌, ◌<◌, ◌+◌, ◌-◌, ◌++◌, ℕ, List, drop, take, min, length, vec_len, Some};
ghost use Rattle.aps_io.specs.Bytes.{Reads, ReadCause, Writes, WriteCause};
ghost use Rattle.aps_io.specs.Scripted.{GrowingSink, GrowsOrLacks, answer_to_read, grown};
ghost use Rattle.aps_io.specs.declared.sink.WriteAnswer.TheVariants.{Failed, NoMemory};

use crate::{ReadAnswer, Sink, Source, WriteAnswer};
use std::marker::Model;

/// A source over bytes that never fails.
#[derive(Drop)]
pub struct CalmSource {
    bytes: Vec<u8>,
    at: usize,
}

impl Model for CalmSource {
    ghost Value = { List ℕ };

    ghost view = { λ s. drop s.at s.bytes.items };

    ghost invariant = { λ s. s.at ≤ vec_len s.bytes };
}

/// A sink that keeps what is written, and never fails. What it keeps grows by the allocator that it
/// came with.
#[derive(Drop)]
pub struct CalmSink {
    written: Vec<u8>,
    shortages: u64,
}

impl Model for CalmSink {
    ghost Value = { GrowingSink };

    ghost view = { λ s. record { written = s.written.items; shortages = s.shortages } };
}

/// Copies bytes from a place on to the front of `into`, as many as there are and as fit, and says
/// how many.
pub(crate) fn copy_from(bytes: &[u8], at: usize, into: &mut [u8]) -> usize
    requires { at ≤ length bytes.now }
    ensures count { result ≡ min (length into.old) (length (drop at bytes.now)) }
    ensures copied { drop at bytes.now ≡ take result into.new ++ drop (at + result) bytes.now }
    ensures rest { drop (at + result) bytes.now ≡ drop (length into.old) (drop at bytes.now) }
{
    let n = into.len().min(bytes.len() - at);
    into[..n].copy_from_slice(&bytes[at..at + n]);
    n
}

impl CalmSource {
    /// A source of these bytes.
    pub fn new(bytes: Vec<u8>) -> CalmSource
        ensures { result ≡ bytes.items }
    {
        CalmSource { bytes, at: 0 }
    }
}

impl Source for CalmSource {
    ghost left = { λ s. Some s };

    ghost faults = { λ _. 0 };

    /// As many of the bytes as there are and as fit.
    fn read(&mut self, into: &mut [u8]) -> ReadAnswer
        requires { 0 < length into.old }
        ensures answer { result ≡ answer_to_read self.old (length into.old) }
        ensures after { self.new ≡ drop (length into.old) self.old }
        ensures bytes { Reads (Some self.old) (Some self.new) result into.new }
        ensures cause { ReadCause 0 0 result }
        ensures counted { 0 ≤ 0 + 1 }
    {
        let n = copy_from(&self.bytes, self.at, into);
        self.at += n;
        if n == 0 {
            ReadAnswer::End
        } else {
            ReadAnswer::Got(n)
        }
    }
}

impl CalmSink {
    /// A sink that goes on after these bytes.
    pub fn new(written: Vec<u8>) -> CalmSink
        ensures { result ≡ record { written = written.items; shortages = 0 } }
    {
        CalmSink {
            written,
            shortages: 0,
        }
    }

    /// The bytes that it began with and all that was written since.
    pub fn written(&self) -> &[u8]
        ensures { result.now ≡ self.now.written }
    {
        self.written.as_slice()
    }
}

impl Sink for CalmSink {
    ghost written = { λ s. Some s.written };

    ghost faults = { λ _. 0 };

    ghost shortages = { λ s. s.shortages };

    /// The whole piece, or want of memory.
    fn write(&mut self, piece: &[u8]) -> WriteAnswer
        requires { 0 < length piece.now }
        ensures answer { GrowsOrLacks piece.now result }
        ensures after { self.new ≡ grown self.old piece.now result }
        ensures bytes { Writes (Some self.old.written) (Some self.new.written) result piece.now }
        ensures fault { WriteCause 0 0 result Failed }
        ensures shortage { WriteCause self.old.shortages self.new.shortages result NoMemory }
    {
        match self.written.extend_from_slice(piece) {
            Ok(()) => WriteAnswer::Wrote(piece.len()),
            Err(_) => {
                self.shortages = self.shortages.saturating_add(1);
                WriteAnswer::NoMemory
            }
        }
    }
}
