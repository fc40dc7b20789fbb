//! What of a thread never changes while it runs.
use aps_model::{Policy, Program};

/// The policy of a thread, and its program.
#[derive(Drop)]
pub struct Plan {
    pub policy: Policy,
    pub program: Program,
}
