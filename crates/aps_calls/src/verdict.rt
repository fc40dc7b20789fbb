//! The verdict on a journal, written under its status.
ghost use Rattle.std.specs.Prelude.{⊤};
ghost use Rattle.aps_check.specs.Text.{verdict_text};
ghost use Rattle.aps_calls.specs.Printing.{MakesAndPrints, output_of};
ghost use Rattle.aps_calls.specs.Status.{status_of_verdict};

use crate::printing::print;
use crate::status::Status;
use aps_check::Verdict;
use aps_io::Sink;
use std::alloc::Global;

/// Writes the line of a verdict, and gives its status; or there was no memory for the line, and nothing was written.
pub fn print_verdict<K: Sink>(alloc: Global, verdict: &Verdict, sink: &mut K) -> Status
    ensures { MakesAndPrints ⊤
        (output_of (K.written sink.old) (K.written sink.new) (K.faults sink.old) (K.faults sink.new)
        (K.shortages sink.old) (K.shortages sink.new))
        (verdict_text verdict.now) (status_of_verdict verdict.now) result }
{
    match aps_check::text::print_verdict(alloc, verdict) {
        Ok(text) => print(sink, text.as_bytes(), Status::of_verdict(verdict)),
        Err(_) => Status::NoMemory,
    }
}
