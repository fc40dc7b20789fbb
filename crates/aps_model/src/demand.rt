//! A stated need of processor time.
use crate::name::Name;

/// What somebody asks for a partition of this name: so many ns of processor time in each window, over all processors.
/// See `docs/DEFINITIONS.md`, Demands.
#[derive(Clone, Copy, PartialEq, Eq)]
pub struct Demand {
    pub name: Name,
    pub need: u64,
}
