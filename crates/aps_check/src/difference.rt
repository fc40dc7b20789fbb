//! The first field in which an entry differs from the step of its processor.
ghost use Rattle.std.specs.Prelude.{◌≡◌, ◌↔◌, IsTrue, MatchOption};
ghost use Rattle.aps_check.specs.Difference.{IsFirstDifference};

use crate::verdict::Rule;
use aps_model::{Done, Entry};

/// The first field behind the processor, in the order of a journal's line, in which the entries differ. `None` comes
/// where they are alike.
pub fn first_difference(entry: &Entry, step: &Entry) -> Option<Rule>
    ensures { entry.now.cpu ≡ step.now.cpu → MatchOption result (entry.now ≡ step.now) (IsFirstDifference entry.now step.now) }
{
    if entry.from != step.from {
        Some(Rule::From)
    } else if entry.to != step.to {
        Some(Rule::To)
    } else if entry.ran != step.ran {
        Some(Rule::Ran)
    } else if entry.billed != step.billed {
        Some(Rule::Billed)
    } else if entry.critical != step.critical {
        Some(Rule::Critical)
    } else if !is_same_done(&entry.done, &step.done) {
        Some(Rule::Done)
    } else if entry.picked != step.picked {
        Some(Rule::Picked)
    } else if entry.starved != step.starved {
        Some(Rule::Starved)
    } else if entry.flagged != step.flagged {
        Some(Rule::Flagged)
    } else {
        None
    }
}

// Whether the operations did the same. The check decides on so many variants only where nothing else stands.
fn is_same_done(done: &Done, other: &Done) -> bool
    ensures { IsTrue result ↔ (done.now ≡ other.now) }
{
    done == other
}
