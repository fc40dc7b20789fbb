//! Why there is no text of a report.
ghost use Rattle.std.specs.Prelude.{◌≡◌};
ghost use Rattle.view_top.specs.Refusal.{report_refusal};

use aps_calls::refusal::InputRefusal;
use view_words::Report;

/// Why there is no text of this report: a picture would begin behind the end, and any other report is asked about a thread that
/// isn't there.
pub fn refusal_of(report: Report) -> InputRefusal
    ensures { result ≡ report_refusal report }
{
    match report {
        Report::Picture { .. } => InputRefusal::BehindEnd,
        _ => InputRefusal::UnknownThread,
    }
}
