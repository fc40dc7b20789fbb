//! A source read to its end, and a text written whole.
ghost use Rattle.std.specs.Prelude.{◌≡◌, ◌≤◌, ◌<◌, ◌+◌, List, ℕ, length, take, vec_len, IfOk, OnOk, OnErr, IsErrOf};
ghost use Rattle.std.specs.Io.KnownBytes.{Consumes, Appends, IsAtEnd};
ghost use Rattle.aps_io.specs.Causes.{Rose};
ghost use Rattle.aps_io.specs.Bytes.{Delivered};

use crate::{ReadAnswer, Sink, Source, WriteAnswer};
use std::alloc::{AllocError, Global};

/// Why a source wasn't read to its end: it met a fault, gave more bytes than were wanted, or there
/// was no memory for them.
#[derive(Clone, Copy, Debug, PartialEq, Eq)]
pub enum ReadRefusal {
    ReadFault,
    TooLong,
    NoMemory,
}

/// Why a text wasn't written whole: the sink met a fault, or found no memory.
#[derive(Clone, Copy, Debug, PartialEq, Eq)]
pub enum WriteRefusal {
    WriteFault,
    NoMemory,
}

/// As much as one read asks for: what a pipe holds.
const PIECE: usize = 65_536;

/// A buffer of this length.
fn zeros(alloc: Global, length: usize) -> Result<Vec<u8>, AllocError>
    ensures { IfOk result (λ v. vec_len v ≡ length) }
{
    let buffer = vec![in alloc; 0u8; length]?;
    Ok(buffer)
}

/// All bytes of the source, read to its end in at most `most + 2` reads. `most` counts bytes, and is
/// 1,000,000,000 at the most.
///
/// `TooLong` comes only where the source gave more than `most` bytes, of which one more is read, and
/// then nothing but `NoMemory` comes in its place. `ReadFault` comes only where the source's count of
/// faults rose in this call. `NoMemory` comes where there was no memory for the bytes, or for a
/// buffer of 65,536 bytes. After a refusal part of the source was read.
pub fn read_all<S: Source>(
    alloc: Global,
    source: &mut S,
    most: usize,
) -> Result<Vec<u8>, ReadRefusal>
    requires { most ≤ 1000000000 }
    // The bytes that were delivered are those of the answer; more than `most` of them are refused.
    ensures delivered { (bytes : List ℕ) × Consumes (S.left source.old) (S.left source.new) bytes × Delivered bytes most result }
    ensures to_the_end { OnOk result (IsAtEnd (S.left source.new)) }
    ensures fault { IsErrOf result ReadRefusal.ReadFault → Rose (S.faults source.old) (S.faults source.new) }
    ensures later { S.faults source.old ≤ S.faults source.new }
    ensures reads { S.reads source.new ≤ S.reads source.old + (most + 2) }
{
    let Ok(mut piece) = zeros(alloc, PIECE) else {
        return Err(ReadRefusal::NoMemory);
    };
    read_by_pieces(alloc, source, most, &mut piece)
}

/// The reading of `read_all`, by way of a buffer that holds one piece.
fn read_by_pieces<S: Source>(
    alloc: Global,
    source: &mut S,
    most: usize,
    piece: &mut [u8],
) -> Result<Vec<u8>, ReadRefusal>
    requires most { most ≤ 1000000000 }
    requires room { 0 < length piece.old }
    ensures delivered { (bytes : List ℕ) × Consumes (S.left source.old) (S.left source.new) bytes × Delivered bytes most result }
    ensures to_the_end { OnOk result (IsAtEnd (S.left source.new)) }
    ensures fault { IsErrOf result ReadRefusal.ReadFault → Rose (S.faults source.old) (S.faults source.new) }
    ensures later { S.faults source.old ≤ S.faults source.new }
    ensures reads { S.reads source.new ≤ S.reads source.old + (most + 2) }
{
    let mut bytes = Vec::new(alloc);
    'reading: while bytes.len() <= most {
        let room = most + 1 - bytes.len();
        let want = room.min(piece.len());
        match source.read(&mut piece[..want]) {
            ReadAnswer::Got(n) => {
                if bytes.extend_from_slice(&piece[..n]).is_err() {
                    return Err(ReadRefusal::NoMemory);
                }
            }
            ReadAnswer::End => return Ok(bytes),
            ReadAnswer::Failed => return Err(ReadRefusal::ReadFault),
        }
    }
    Err(ReadRefusal::TooLong)
}

/// Appends the whole text, in as many writes as the sink takes for it, or after a refusal a prefix
/// of it. `WriteFault` comes only where the sink's count of faults rose in this call, and `NoMemory`
/// only where its count of wants of memory did: the call itself takes no memory.
pub fn write_all<K: Sink>(sink: &mut K, text: &[u8]) -> Result<(), WriteRefusal>
    ensures whole { OnOk result (Appends (K.written sink.old) (K.written sink.new) text.now) }
    ensures prefix { OnErr result ((n : ℕ) × (n ≤ length text.now) × Appends (K.written sink.old) (K.written sink.new) (take n text.now)) }
    ensures fault { IsErrOf result WriteRefusal.WriteFault → Rose (K.faults sink.old) (K.faults sink.new) }
    ensures later { K.faults sink.old ≤ K.faults sink.new }
    ensures shortage { IsErrOf result WriteRefusal.NoMemory → Rose (K.shortages sink.old) (K.shortages sink.new) }
    ensures more_shortages { K.shortages sink.old ≤ K.shortages sink.new }
{
    let mut at = 0;
    'writing: while at < text.len() {
        match sink.write(&text[at..]) {
            WriteAnswer::Wrote(n) => at += n,
            WriteAnswer::Failed => return Err(WriteRefusal::WriteFault),
            WriteAnswer::NoMemory => return Err(WriteRefusal::NoMemory),
        }
    }
    Ok(())
}
