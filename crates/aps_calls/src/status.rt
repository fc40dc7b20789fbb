//! How a call ended, as a number.
ghost use Rattle.std.specs.Prelude.{◌≡◌};
ghost use Rattle.aps_calls.specs.Status.{code, or_write_fault, status_of_end, status_of_verdict};

use aps_check::Verdict;
use aps_model::End;

/// How a call ended. The numbers are those of both programs.
#[derive(Clone, Copy, PartialEq, Eq)]
pub enum Status {
    /// The whole text was written.
    Done,
    /// The words are no command, or ask for no report.
    WordsRefused,
    /// The input is none that was asked for.
    InputRefused,
    /// The run ended by a reboot.
    Rebooted,
    /// Reading failed.
    ReadFault,
    /// Writing failed, and nothing else did.
    WriteFault,
    /// The run ended by its limit of entries.
    Limited,
    /// There was no memory.
    NoMemory,
    /// The input has more bytes than are taken.
    TooLong,
    /// The journal that was read breaks a rule.
    JournalBreaks,
    /// The demands need more parts than there are. `apsview` never ends so.
    NeedsExceed,
}

impl Status {
    /// The exit status, 0 to 10.
    pub fn code(self) -> u8
        ensures { result ≡ code self }
    {
        match self {
            Status::Done => 0,
            Status::WordsRefused => 1,
            Status::InputRefused => 2,
            Status::Rebooted => 3,
            Status::ReadFault => 4,
            Status::WriteFault => 5,
            Status::Limited => 6,
            Status::NoMemory => 7,
            Status::TooLong => 8,
            Status::JournalBreaks => 9,
            Status::NeedsExceed => 10,
        }
    }

    /// The status of a run that ended so.
    pub fn of_end(end: &End) -> Status
        ensures { result ≡ status_of_end end.now }
    {
        match end {
            End::Horizon => Status::Done,
            End::Limit => Status::Limited,
            End::Reboot(_) => Status::Rebooted,
        }
    }

    /// The status of a verdict on a journal.
    pub fn of_verdict(verdict: &Verdict) -> Status
        ensures { result ≡ status_of_verdict verdict.now }
    {
        match verdict {
            Verdict::Legal { .. } => Status::Done,
            Verdict::Breaks { .. } => Status::JournalBreaks,
        }
    }

    /// The same status after a fault of the sink, which takes the place of `Done` alone.
    pub fn or_write_fault(self) -> Status
        ensures { result ≡ or_write_fault self }
    {
        match self {
            Status::Done => Status::WriteFault,
            other => other,
        }
    }
}
