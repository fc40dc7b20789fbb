//! The outcome of a call of the program, by its words and its input.
ghost use Rattle.std.specs.Prelude.{map, string_bytes};
ghost use Rattle.aps_calls.specs.Intake.{intake_of};
ghost use Rattle.aps_calls.specs.Printing.{output_of};
ghost use Rattle.view_words.specs.Asked.{asked};
ghost use Rattle.view_top.specs.Cause.{IsViewOutcome};
ghost use Rattle.view_top.specs.Outcome.{view_status, view_text};
ghost use Rattle.view_top.specs.Printing.{SaysTold};

use crate::reading::outcome_of;
use crate::traced::Traced;
use aps_calls::failure::Failure;
use aps_calls::printing::print;
use aps_calls::status::Status;
use aps_calls::verdict::print_verdict;
use aps_check::Verdict;
use aps_io::{Sink, Source};
use aps_words::WordsRefusal;
use std::alloc::Global;
use view_words::asked_of;

/// The outcome of a call of the program.
#[derive(Drop)]
pub enum Outcome {
    /// There is none, for this cause.
    Failed(Failure),
    /// This is the report of a run, or of a legal journal, under this status.
    Reported { status: Status, text: String },
    /// This is the history that is told as a trace.
    Traced(Traced),
    /// The journal breaks a rule, as this verdict says.
    Broken { verdict: Verdict },
}

impl Outcome {
    /// Decides by the words, then by the reading of the source, then by what was read.
    pub fn of<S: Source>(alloc: Global, words: &[String], source: &mut S) -> Outcome
        ensures { IsViewOutcome (asked (map string_bytes words.now))
            (intake_of (S.left source.old) (S.left source.new) (S.faults source.old) (S.faults source.new)) result }
    {
        match asked_of(alloc, words) {
            Ok(asked) => outcome_of(alloc, asked, source),
            Err(WordsRefusal::Words) => Outcome::Failed(Failure::WordsRefused),
            Err(WordsRefusal::NoMemory) => Outcome::Failed(Failure::NoMemory),
        }
    }

    /// Writes the text of the outcome, and gives the status that comes of it.
    pub fn say<K: Sink>(&self, alloc: Global, sink: &mut K) -> Status
        ensures { SaysTold (output_of (K.written sink.old) (K.written sink.new) (K.faults sink.old) (K.faults sink.new)
            (K.shortages sink.old) (K.shortages sink.new)) (view_text self.now) (view_status self.now) result }
    {
        match self {
            Outcome::Failed(failure) => failure.say(alloc, sink),
            Outcome::Reported { status, text } => print(sink, text.as_bytes(), *status),
            Outcome::Traced(traced) => traced.say(alloc, sink),
            Outcome::Broken { verdict } => print_verdict(alloc, verdict, sink),
        }
    }
}
