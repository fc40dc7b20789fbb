//! A text written under a status.
ghost use Rattle.aps_calls.specs.Printing.{Prints, output_of};

use crate::status::Status;
use aps_io::{Sink, WriteRefusal, write_all};

/// Writes a text, and gives the status for which it was written. A fault of the sink takes the place
/// of `Done` alone, and want of memory that of any status, but comes only where the sink itself wanted
/// memory in this call; a prefix was written then.
pub fn print<K: Sink>(sink: &mut K, text: &[u8], status: Status) -> Status
    ensures prints { Prints
        (output_of (K.written sink.old) (K.written sink.new) (K.faults sink.old) (K.faults sink.new)
        (K.shortages sink.old) (K.shortages sink.new))
        text.now status result }
{
    match write_all(sink, text) {
        Ok(()) => status,
        Err(WriteRefusal::WriteFault) => status.or_write_fault(),
        Err(WriteRefusal::NoMemory) => Status::NoMemory,
    }
}
