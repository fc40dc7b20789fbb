//! The report of a history, written under a status.
ghost use Rattle.std.specs.Prelude.{⊤};
ghost use Rattle.aps_model.specs.Audit.{audit_of};
ghost use Rattle.aps_model.specs.Journal.{journal_text};
ghost use Rattle.aps_model.specs.Report.{summary_text, windows_text};
ghost use Rattle.aps_top.specs.Outcome.{report_text};
ghost use Rattle.aps_calls.specs.Printing.{MakesAndPrints, output_of};

use aps_bound::audit;
use aps_calls::printing::print;
use aps_calls::status::Status;
use aps_io::Sink;
use aps_model::History;
use aps_report::{JournalFault, journal, summary, windows};
use aps_words::Report;
use std::alloc::Global;

/// Writes this report of the history, and gives the status for which it was written, as `print` does; or there was no
/// memory for the report, and nothing was written.
pub fn print_report<K: Sink>(
    alloc: Global,
    report: Report,
    history: &History,
    status: Status,
    sink: &mut K,
) -> Status
    ensures { MakesAndPrints ⊤
        (output_of (K.written sink.old) (K.written sink.new) (K.faults sink.old) (K.faults sink.new)
        (K.shortages sink.old) (K.shortages sink.new))
        (report_text report history.now) status result }
{
    match report {
        Report::Summary => print_summary(alloc, history, status, sink),
        Report::Windows => print_windows(alloc, history, status, sink),
        Report::Journal => print_journal(alloc, history, status, sink),
    }
}

fn print_summary<K: Sink>(alloc: Global, history: &History, status: Status, sink: &mut K) -> Status
    ensures { MakesAndPrints ⊤
        (output_of (K.written sink.old) (K.written sink.new) (K.faults sink.old) (K.faults sink.new)
        (K.shortages sink.old) (K.shortages sink.new))
        (summary_text history.now (audit_of history.now)) status result }
{
    match summary(alloc, history, &audit(history)) {
        Ok(text) => print(sink, text.as_bytes(), status),
        Err(_) => Status::NoMemory,
    }
}

fn print_windows<K: Sink>(alloc: Global, history: &History, status: Status, sink: &mut K) -> Status
    ensures { MakesAndPrints ⊤
        (output_of (K.written sink.old) (K.written sink.new) (K.faults sink.old) (K.faults sink.new)
        (K.shortages sink.old) (K.shortages sink.new))
        (windows_text history.now) status result }
{
    match windows(alloc, history) {
        Ok(text) => print(sink, text.as_bytes(), status),
        Err(_) => Status::NoMemory,
    }
}

fn print_journal<K: Sink>(alloc: Global, history: &History, status: Status, sink: &mut K) -> Status
    ensures { MakesAndPrints ⊤
        (output_of (K.written sink.old) (K.written sink.new) (K.faults sink.old) (K.faults sink.new)
        (K.shortages sink.old) (K.shortages sink.new))
        (journal_text history.now.entries) status result }
{
    match journal(alloc, history, sink) {
        Ok(()) => status,
        Err(JournalFault::WriteFault) => status.or_write_fault(),
        Err(JournalFault::NoMemory) => Status::NoMemory,
    }
}
