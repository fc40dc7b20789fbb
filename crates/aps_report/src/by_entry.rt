//! The journal of a history, written to a sink.
ghost use Rattle.std.specs.Prelude.{◌≡◌, ◌+◌, ◌<◌, ◌≤◌, ◌⊎◌, ◌++◌, [], length, vec_len, vec_capacity, OnOk, OnErr, IsErrOf};
ghost use Rattle.std.specs.Io.KnownBytes.{Appends, Keeps};
ghost use Rattle.aps_io.specs.Causes.{Rose};
ghost use Rattle.aps_model.specs.Journal.{entry_line, journal_text};
ghost use Rattle.aps_report.specs.Pieces.{IsMoved, IsPrefixWritten, full_piece, piece_room};

use aps_io::{Sink, WriteRefusal, write_all};
use aps_model::{Entry, History, NoMemory};
use aps_text::{LineBuffer, MAX_LINE};
use std::alloc::Global;
use thiserror::Error;

/// As much as is written at once.
const PIECE: usize = 65_536;

/// Why a journal wasn't written whole.
#[derive(Clone, Copy, Debug, PartialEq, Eq, Error)]
pub enum JournalFault {
    #[error("the sink met a fault")]
    WriteFault,
    #[error("out of memory")]
    NoMemory,
}

impl From<NoMemory> for JournalFault {
    ghost use Rattle.aps_report.specs.declared.by_entry.JournalFault.TheVariants.{NoMemory};

    ghost from_gives = { λ _ e. e ≡ NoMemory };

    fn from(_lack: NoMemory) -> JournalFault {
        JournalFault::NoMemory
    }
}

impl From<WriteRefusal> for JournalFault {
    ghost use Rattle.aps_report.specs.Faults.{fault_of};

    ghost from_gives = { λ refusal e. e ≡ fault_of refusal };

    fn from(refusal: WriteRefusal) -> JournalFault {
        match refusal {
            WriteRefusal::WriteFault => JournalFault::WriteFault,
            WriteRefusal::NoMemory => JournalFault::NoMemory,
        }
    }
}

/// Writes the line of each entry, in their order and in pieces of some 65,536 bytes (docs/FORMATS.md,
/// "Journal"). All memory that it takes is that of one piece, at the start. `WriteFault` comes only where the sink's
/// count of faults rose in this call; `NoMemory` only where nothing was written yet, or where the sink itself wanted
/// memory in this call. After either a prefix of the journal was written.
pub fn journal<K: Sink>(alloc: Global, history: &History, sink: &mut K) -> Result<(), JournalFault>
    ensures whole { OnOk result (Appends (K.written sink.old) (K.written sink.new) (journal_text history.now.entries)) }
    ensures prefix { OnErr result (IsPrefixWritten (K.written sink.old) (K.written sink.new) (journal_text history.now.entries)) }
    ensures fault { IsErrOf result JournalFault.WriteFault → Rose (K.faults sink.old) (K.faults sink.new) }
    ensures shortage { IsErrOf result JournalFault.NoMemory
        → Keeps (K.written sink.old) (K.written sink.new) ⊎ Rose (K.shortages sink.old) (K.shortages sink.new) }
    ensures later { K.faults sink.old ≤ K.faults sink.new }
    ensures more_shortages { K.shortages sink.old ≤ K.shortages sink.new }
{
    let mut piece = Vec::with_capacity(alloc, PIECE + MAX_LINE)?;
    write_lines(&mut piece, history.entries(), sink)?;
    Ok(())
}

/// Writes the line of each entry by way of `piece`, which is empty at first and has room for all that is put into it.
fn write_lines<K: Sink>(
    piece: &mut Vec<u8>,
    entries: &[Entry],
    sink: &mut K,
) -> Result<(), WriteRefusal>
    requires empty { piece.old.items ≡ [] }
    requires room { piece_room ≤ vec_capacity piece.old }
    ensures whole { OnOk result (Appends (K.written sink.old) (K.written sink.new) (journal_text entries.now)) }
    ensures prefix { OnErr result (IsPrefixWritten (K.written sink.old) (K.written sink.new) (journal_text entries.now)) }
    ensures fault { IsErrOf result WriteRefusal.WriteFault → Rose (K.faults sink.old) (K.faults sink.new) }
    ensures shortage { IsErrOf result WriteRefusal.NoMemory → Rose (K.shortages sink.old) (K.shortages sink.new) }
    ensures later { K.faults sink.old ≤ K.faults sink.new }
    ensures more_shortages { K.shortages sink.old ≤ K.shortages sink.new }
{
    let mut line = LineBuffer::new();
    for e in entries {
        make_room(sink, piece)?;
        add_line(piece, line.line(e));
    }
    write_all(sink, piece)?;
    Ok(())
}

/// Puts a line behind the piece, which has room for it.
fn add_line(piece: &mut Vec<u8>, line: &[u8])
    requires { vec_len piece.old + length line.now ≤ vec_capacity piece.old }
    ensures items { piece.new.items ≡ piece.old.items ++ line.now }
    ensures capacity { vec_capacity piece.old ≤ vec_capacity piece.new }
{
    // no memory is taken where there is room
    let _ = piece.extend_from_slice(line);
}

/// Writes the piece and empties it, where it is full.
fn make_room<K: Sink>(sink: &mut K, piece: &mut Vec<u8>) -> Result<(), WriteRefusal>
    ensures moved { OnOk result (IsMoved (K.written sink.old) (K.written sink.new) piece.old.items piece.new.items) }
    ensures room { OnOk result (vec_len piece.new < full_piece) }
    ensures capacity { vec_capacity piece.new ≡ vec_capacity piece.old }
    ensures prefix { OnErr result (IsPrefixWritten (K.written sink.old) (K.written sink.new) piece.old.items) }
    ensures fault { IsErrOf result WriteRefusal.WriteFault → Rose (K.faults sink.old) (K.faults sink.new) }
    ensures shortage { IsErrOf result WriteRefusal.NoMemory → Rose (K.shortages sink.old) (K.shortages sink.new) }
    ensures later { K.faults sink.old ≤ K.faults sink.new }
    ensures more_shortages { K.shortages sink.old ≤ K.shortages sink.new }
{
    if piece.len() >= PIECE {
        write_all(sink, piece)?;
        piece.clear();
    }
    Ok(())
}
