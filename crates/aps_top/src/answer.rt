//! The answer to demands, written under its status.
ghost use Rattle.std.specs.Prelude.{◌≡◌, ⊤};
ghost use Rattle.aps_admit.specs.Text.{admission_text};
ghost use Rattle.aps_calls.specs.Printing.{MakesAndPrints, output_of};
ghost use Rattle.aps_top.specs.Outcome.{status_of_admission};

use aps_admit::Admission;
use aps_calls::printing::print;
use aps_calls::status::Status;
use aps_io::Sink;
use std::alloc::Global;

/// Writes the lines of an answer to demands, and gives its status; or there was no memory for the lines, and nothing was
/// written.
pub fn print_admission<K: Sink>(alloc: Global, admission: &Admission, sink: &mut K) -> Status
    ensures { MakesAndPrints ⊤
        (output_of (K.written sink.old) (K.written sink.new) (K.faults sink.old) (K.faults sink.new)
        (K.shortages sink.old) (K.shortages sink.new))
        (admission_text admission.now) (status_of_admission admission.now) result }
{
    match aps_admit::print(alloc, admission) {
        Ok(text) => print(sink, text.as_bytes(), status_of(admission)),
        Err(_) => Status::NoMemory,
    }
}

/// The status of an answer to demands.
fn status_of(admission: &Admission) -> Status
    ensures { result ≡ status_of_admission admission.now }
{
    match admission {
        Admission::Budgets(_) => Status::Done,
        Admission::Needs { .. } => Status::NeedsExceed,
    }
}
