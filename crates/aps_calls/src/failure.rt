//! Why a call has no result, and what is written then.
ghost use Rattle.std.specs.Prelude.{◌≡◌};
ghost use Rattle.aps_calls.specs.Failure.{SaysFailure, not_read, of_journal_refusal, of_refusal};
ghost use Rattle.aps_calls.specs.Printing.{output_of};

use crate::printing::print;
use crate::refusal::{InputRefusal, print_refusal};
use crate::status::Status;
use aps_io::{ReadRefusal, Sink};
use aps_scenario::ScenarioRefusal;
use aps_text::JournalRefusal;
use std::alloc::Global;

/// Why a call has no result.
#[derive(Clone, Copy)]
pub enum Failure {
    /// The words are no command, or ask for no report.
    WordsRefused,
    /// Reading failed.
    ReadFault,
    /// The input is too long.
    TooLong,
    /// The input is none that was asked for.
    InputRefused(InputRefusal),
    /// There was no memory.
    NoMemory,
}

impl Failure {
    /// What comes of an input that wasn't read to its end.
    pub fn not_read(refusal: ReadRefusal) -> Failure
        ensures { result ≡ not_read refusal }
    {
        match refusal {
            ReadRefusal::ReadFault => Failure::ReadFault,
            ReadRefusal::TooLong => Failure::TooLong,
            ReadRefusal::NoMemory => Failure::NoMemory,
        }
    }

    /// What comes of a text that is no scenario, or no demands.
    pub fn of_refusal(refusal: &ScenarioRefusal) -> Failure
        ensures { result ≡ of_refusal refusal.now }
    {
        match refusal {
            ScenarioRefusal::Refused { kind, path } => Failure::InputRefused(InputRefusal::Text {
                kind: *kind,
                path: *path,
            }),
            ScenarioRefusal::NoMemory => Failure::NoMemory,
        }
    }

    /// What comes of a text that is no journal.
    pub fn of_journal_refusal(refusal: JournalRefusal) -> Failure
        ensures { result ≡ of_journal_refusal refusal }
    {
        match refusal {
            JournalRefusal::BadLine { line, column } => {
                Failure::InputRefused(InputRefusal::BadJournal { line, column })
            }
            JournalRefusal::NoMemory => Failure::NoMemory,
        }
    }

    /// Writes the line that says why, and gives the status for that; or there was no memory for the line, and nothing was
    /// written.
    pub fn say<K: Sink>(&self, alloc: Global, sink: &mut K) -> Status
        ensures { SaysFailure
            (output_of (K.written sink.old) (K.written sink.new) (K.faults sink.old) (K.faults sink.new)
            (K.shortages sink.old) (K.shortages sink.new)) self.now result }
    {
        match self {
            Failure::WordsRefused => print(sink, b"aps: words refused\n", Status::WordsRefused),
            Failure::ReadFault => print(sink, b"aps: read fault\n", Status::ReadFault),
            Failure::TooLong => print(sink, b"aps: input too long\n", Status::TooLong),
            Failure::InputRefused(refusal) => print_refusal(alloc, refusal, sink),
            Failure::NoMemory => Status::NoMemory,
        }
    }
}
