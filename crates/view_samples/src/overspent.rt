//! Entries that made their partition bankrupt.
use aps_model::{Nanos, PartitionId};

/// An entry that ended at this moment (ns) made this partition bankrupt: by so much (ns) the partition's critical usage in the window
/// exceeded its critical budget.
#[derive(Clone, Copy, PartialEq, Eq)]
pub struct Overspent {
    pub moment: Nanos,
    pub partition: PartitionId,
    pub excess: Nanos,
}
