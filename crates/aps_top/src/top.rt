//! The whole program as one call: the words, the reading, the run and the printing.
ghost use Rattle.std.specs.Prelude.{map, string_bytes};
ghost use Rattle.aps_words.specs.Command.{command};
ghost use Rattle.aps_top.specs.Asked.{calm_command};
ghost use Rattle.aps_calls.specs.Printing.{output_of};
ghost use Rattle.aps_top.specs.Answers.{Tells, IsAnswer};
ghost use Rattle.aps_calls.specs.Intake.{intake_of};

use crate::outcome::Outcome;
use aps_cpu::Gate;
use aps_io::{Sink, Source};
use aps_model::History;
use std::alloc::Global;
use std::sync::Wait;
use std::thread::Threads;

/// How a call ended: the exit status (docs/FORMATS.md, "Exit status"), and the history where there was a run.
#[derive(Drop)]
pub struct Ended {
    /// 0 to 10.
    pub status: u8,
    /// Only `solo` and `run` have one: under 0, 3, 5 and 6, and under 7 where memory ran out only after the run.
    pub history: Option<History>,
}

/// Does what the words ask for, on the calling thread. For `solo` it reads a scenario from the source,
/// runs it in fixed order up to the named limit, and writes the named report of its history to the
/// sink. For `gen` it reads nothing, and writes the text of the scenario that is generated from the
/// named numbers. For `upgrade` it reads a scenario, and writes it with its budgets in parts per thousand. For
/// `check` it reads a scenario and a journal, and writes whether the journal is that of a run of the scenario in the
/// named order and up to the named limit. For `admit` it reads demands, and writes the least budgets that meet them.
/// It waits for nobody. Commands that need other threads are refused as words.
///
/// A refusal and a fault of the source are written to the sink too. Each status has its one cause: docs/FORMATS.md,
/// "Exit status". A fault of the sink leaves a prefix of the text there, and so does the sink's own want of memory; where
/// memory is wanting for anything else nothing is written.
pub fn calm_top<S: Source, K: Sink>(
    alloc: Global,
    words: &[String],
    source: &mut S,
    sink: &mut K,
) -> Ended
    // One outcome that its words and its input are the cause of, told; so that each status comes in its case.
    ensures answer { IsAnswer (calm_command (map string_bytes words.now))
        (intake_of (S.left source.old) (S.left source.new) (S.faults source.old) (S.faults source.new))
        (output_of (K.written sink.old) (K.written sink.new) (K.faults sink.old) (K.faults sink.new)
        (K.shortages sink.old) (K.shortages sink.new)) result }
{
    let outcome = Outcome::of_calm_words(alloc, words, source);
    tell(alloc, outcome, sink)
}

/// Does what the words ask for. `run` reads a scenario from the source, runs it in the named order up to
/// the named limit with a thread for each processor, each of which enters the gate before its turns, and
/// writes the named report of its history to the sink. All else is as `calm_top` does it.
///
/// `run` may wait, for the other threads and at the gate, and that it returns isn't promised: what is said of the answer
/// holds where there is one.
pub fn top<R: Threads + Wait + Sync, S: Source, K: Sink, G: Gate + Sync>(
    rt: &R,
    alloc: Global,
    words: &[String],
    source: &mut S,
    sink: &mut K,
    gate: &G,
) -> Ended
    // One outcome that its words and its input are the cause of, told; so that each status comes in its case.
    ensures answer { IsAnswer (command (map string_bytes words.now))
        (intake_of (S.left source.old) (S.left source.new) (S.faults source.old) (S.faults source.new))
        (output_of (K.written sink.old) (K.written sink.new) (K.faults sink.old) (K.faults sink.new)
        (K.shortages sink.old) (K.shortages sink.new)) result }
{
    let outcome = Outcome::of(rt, alloc, words, source, gate);
    tell(alloc, outcome, sink)
}

/// Writes the text of the outcome to the sink, and hands back the status and the history.
fn tell<K: Sink>(alloc: Global, outcome: Outcome, sink: &mut K) -> Ended
    ensures { Tells outcome (output_of (K.written sink.old) (K.written sink.new) (K.faults sink.old) (K.faults sink.new)
        (K.shortages sink.old) (K.shortages sink.new)) result }
{
    let status = outcome.say(alloc, sink);
    Ended {
        status: status.code(),
        history: outcome.into_history(),
    }
}
