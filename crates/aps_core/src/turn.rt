//! What a step answers.
use aps_model::{CpuId, End, Entry, Nanos};

/// What a processor's step answers. Due moments, turns and entries are defined in docs/DEFINITIONS.md.
#[derive(Clone, Copy, Debug, PartialEq, Eq)]
pub enum Turn {
    /// The run has ended. Nothing changed.
    Ended(End),
    /// The processor hasn't the turn: `cpu` is the lowest one that has it, and it is due at `due` (ns). Nothing
    /// changed.
    NotYet { cpu: CpuId, due: Nanos },
    /// The step was made, and this is its entry, the last one of the history.
    Took(Entry),
}
