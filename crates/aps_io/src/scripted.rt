//! A source and a sink in memory that fail at the calls that they are told to.
ghost use Rattle.std.specs.Prelude.{◌≡◌, ◌≤◌, ◌<◌, ◌+◌, ◌++◌, ℕ, List, [], drop, take, min, length, vec_len, Some, nat_eq};
ghost use Rattle.std.specs.List.{list_any};
ghost use Rattle.aps_io.specs.Bytes.{Reads, ReadCause, Writes, WriteCause};
ghost use Rattle.aps_io.specs.Scripted.{ScriptedSource, ScriptedSink, WriteAnswers, is_failing, read_answer, after_read, after_write};
ghost use Rattle.aps_io.specs.declared.sink.WriteAnswer.TheVariants.{Failed, NoMemory};

use crate::calm::copy_from;
use crate::{ReadAnswer, Sink, Source, WriteAnswer};
use std::marker::Model;

/// A source over bytes that fails at the calls whose numbers it is given, counted from 0.
#[derive(Drop)]
pub struct MemSource {
    bytes: Vec<u8>,
    at: usize,
    fails: Vec<u32>,
    calls: u64,
    faults: u64,
}

impl Model for MemSource {
    ghost Value = { ScriptedSource };

    ghost view = { λ s. record {
      left = drop s.at s.bytes.items;
      fails = s.fails.items;
      calls = s.calls;
      faults = s.faults;
    } };

    ghost invariant = { λ s. s.at ≤ vec_len s.bytes };
}

/// A sink that keeps what is written, and fails at the calls whose numbers it is given, counted
/// from 0. What it keeps grows by the allocator that it came with.
#[derive(Drop)]
pub struct MemSink {
    written: Vec<u8>,
    fails: Vec<u32>,
    calls: u64,
    faults: u64,
    shortages: u64,
}

impl Model for MemSink {
    ghost Value = { ScriptedSink };

    ghost view = { λ s. record {
      written = s.written.items;
      fails = s.fails.items;
      calls = s.calls;
      faults = s.faults;
      shortages = s.shortages;
    } };
}

/// Whether the call of this number is one of those that fail.
fn is_failing(fails: &[u32], call: u64) -> bool
    ensures { result ≡ is_failing fails.now call }
{
    fails.iter().any(|&number| call == u64::from(number))
}

impl MemSource {
    /// A source of these bytes, of which no call was made so far. `fails` has the numbers of the calls
    /// of `read` that fail, in any order: the first call is number 0.
    pub fn new(bytes: Vec<u8>, fails: Vec<u32>) -> MemSource
        ensures { result ≡ record { left = bytes.items; fails = fails.items; calls = 0; faults = 0 } }
    {
        MemSource {
            bytes,
            at: 0,
            fails,
            calls: 0,
            faults: 0,
        }
    }
}

impl Source for MemSource {
    ghost left = { λ s. Some s.left };

    ghost faults = { λ s. s.faults };

    ghost reads = { λ s. s.calls };

    /// As many of the bytes as there are and as fit, or a fault where this call is one that fails.
    fn read(&mut self, into: &mut [u8]) -> ReadAnswer
        requires { 0 < length into.old }
        ensures answer { result ≡ read_answer self.old (length into.old) }
        ensures after { self.new ≡ after_read self.old (length into.old) }
        ensures bytes { Reads (Some self.old.left) (Some self.new.left) result into.new }
        ensures cause { ReadCause self.old.faults self.new.faults result }
        ensures counted { self.new.calls ≤ self.old.calls + 1 }
    {
        let fails = is_failing(&self.fails, self.calls);
        self.calls = self.calls.saturating_add(1);
        if fails {
            self.faults = self.faults.saturating_add(1);
            return ReadAnswer::Failed;
        }
        let n = copy_from(&self.bytes, self.at, into);
        self.at += n;
        if n == 0 {
            ReadAnswer::End
        } else {
            ReadAnswer::Got(n)
        }
    }
}

impl MemSink {
    /// A sink that goes on after these bytes, of which no call was made so far. `fails` has the numbers
    /// of the calls of `write` that fail, in any order: the first call is number 0.
    pub fn new(written: Vec<u8>, fails: Vec<u32>) -> MemSink
        ensures { result ≡ record { written = written.items; fails = fails.items; calls = 0; faults = 0; shortages = 0 } }
    {
        MemSink {
            written,
            fails,
            calls: 0,
            faults: 0,
            shortages: 0,
        }
    }

    /// The bytes that it began with and all that was written since.
    pub fn written(&self) -> &[u8]
        ensures { result.now ≡ self.now.written }
    {
        self.written.as_slice()
    }
}

impl Sink for MemSink {
    ghost written = { λ s. Some s.written };

    ghost faults = { λ s. s.faults };

    ghost shortages = { λ s. s.shortages };

    /// The whole piece, or a fault where this call is one that fails, or want of memory.
    fn write(&mut self, piece: &[u8]) -> WriteAnswer
        requires { 0 < length piece.now }
        ensures answer { WriteAnswers self.old piece.now result }
        ensures after { self.new ≡ after_write self.old piece.now result }
        ensures bytes { Writes (Some self.old.written) (Some self.new.written) result piece.now }
        ensures fault { WriteCause self.old.faults self.new.faults result Failed }
        ensures shortage { WriteCause self.old.shortages self.new.shortages result NoMemory }
    {
        let fails = is_failing(&self.fails, self.calls);
        self.calls = self.calls.saturating_add(1);
        if fails {
            self.faults = self.faults.saturating_add(1);
            return WriteAnswer::Failed;
        }
        match self.written.extend_from_slice(piece) {
            Ok(()) => WriteAnswer::Wrote(piece.len()),
            Err(_) => {
                self.shortages = self.shortages.saturating_add(1);
                WriteAnswer::NoMemory
            }
        }
    }
}
