//! The whole program as one call: the words, the reading, the run and the printing.
ghost use Rattle.std.specs.Prelude.{map, string_bytes};
ghost use Rattle.view_top.specs.Answer.{IsViewAnswer};
ghost use Rattle.view_words.specs.Asked.{asked};
ghost use Rattle.aps_calls.specs.Intake.{intake_of};
ghost use Rattle.aps_calls.specs.Printing.{output_of};

use crate::outcome::Outcome;
use aps_io::{Sink, Source};
use std::alloc::Global;

/// Does what the words ask for: reads a scenario from the source and runs it in fixed order up to the named limit, or reads a
/// scenario, the line `--- journal` and a journal and judges that as a history in free order up to the named limit; and writes
/// the named report of the history to the sink. The answer is the exit status, 0 to 9.
///
/// A refusal and a fault of the source are written to the sink too, as `apsim` writes them. A fault of the sink leaves a
/// prefix of the text there, and so does want of memory.
pub fn top<S: Source, K: Sink>(alloc: Global, words: &[String], source: &mut S, sink: &mut K) -> u8
    // One outcome that its words and its input are the cause of, told.
    ensures { IsViewAnswer (asked (map string_bytes words.now))
        (intake_of (S.left source.old) (S.left source.new) (S.faults source.old) (S.faults source.new))
        (output_of (K.written sink.old) (K.written sink.new) (K.faults sink.old) (K.faults sink.new)
        (K.shortages sink.old) (K.shortages sink.new)) result }
{
    let outcome = Outcome::of(alloc, words, source);
    let status = outcome.say(alloc, sink);
    status.code()
}
