//! What is said of a journal.
use aps_model::{End, Entry};

/// What an entry of a journal breaks. `After`: the entries before it have ended the run. `Turn`: its processor doesn't
/// exist, or hasn't the turn. Each other rule is a field in which the entry differs from the step of its processor; of
/// several it is the first in the order of a journal's line.
#[derive(Clone, Copy, Debug, PartialEq, Eq)]
pub enum Rule {
    Turn,
    From,
    To,
    Ran,
    Billed,
    Critical,
    Done,
    Picked,
    Starved,
    Flagged,
    After,
}

/// What is said of a journal.
#[derive(Clone, Copy, Debug, PartialEq, Eq)]
pub enum Verdict {
    /// Each entry is the step of a processor that had the turn, made before the run had ended. `end` is how the run has
    /// ended with the last entry, `None` where it goes on.
    Legal {
        end: Option<End>,
    },
    /// The first entry that is no such step, counted from 0, and the rule that it breaks. `expected` is the entry of
    /// the step that its processor makes there, `None` under `After` and `Turn`, where it makes none.
    Breaks {
        entry: u32,
        rule: Rule,
        expected: Option<Entry>,
    },
}
