//! A long text, written to a sink piece by piece.
ghost use Rattle.std.specs.Prelude.{◌≡◌, ◌≤◌, [], string_bytes, IsErrOf, OnOk};
ghost use Rattle.std.specs.Io.KnownBytes.{Appends};
ghost use Rattle.aps_io.specs.Causes.{Rose};
ghost use Rattle.view_texts.specs.Piece.{IsTold};

use crate::fault::TraceFault;
use aps_io::{Sink, write_all};

/// As much as is written at once.
const PIECE: usize = 65_536;

/// Writes the piece and empties it, where it is full.
pub fn make_room<K: Sink>(sink: &mut K, out: &mut String) -> Result<(), TraceFault>
    ensures told { OnOk result (IsTold (K.written sink.old) (K.written sink.new) (string_bytes out.old) (string_bytes out.new) []) }
    ensures fault { IsErrOf result TraceFault.WriteFault → Rose (K.faults sink.old) (K.faults sink.new) }
    ensures later { K.faults sink.old ≤ K.faults sink.new }
{
    if out.len() >= PIECE {
        write_out(sink, out)?;
    }
    Ok(())
}

/// Writes the piece and empties it.
pub fn write_out<K: Sink>(sink: &mut K, out: &mut String) -> Result<(), TraceFault>
    ensures written { OnOk result (Appends (K.written sink.old) (K.written sink.new) (string_bytes out.old)) }
    ensures emptied { OnOk result (string_bytes out.new ≡ []) }
    ensures fault { IsErrOf result TraceFault.WriteFault → Rose (K.faults sink.old) (K.faults sink.new) }
    ensures later { K.faults sink.old ≤ K.faults sink.new }
{
    write_all(sink, out.as_bytes())?;
    out.clear();
    Ok(())
}
