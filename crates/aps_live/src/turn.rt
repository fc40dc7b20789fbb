//! What a live step answers.
use aps_model::{Entry, Nanos};

/// What a live step answers.
#[derive(Clone, Copy, Debug, PartialEq, Eq)]
pub enum LiveTurn {
    /// The entry that the history now has as its last one.
    Took(Entry),
    /// The moment is before the latest one of the history, which is `now_seen`, in ns. Nothing changed.
    Back { now_seen: Nanos },
    /// The history has as many entries as its limit. Nothing changed.
    Full,
}
