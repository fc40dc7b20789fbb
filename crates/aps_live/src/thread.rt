//! Threads as they stand between two live steps.
use aps_model::{Contender, CpuId};

/// What a thread does.
#[derive(Clone, Copy)]
pub enum Doing {
    Waiting,
    Ready,
    Running(CpuId),
}

/// A thread: its number, its own values and its stamp, by which it is compared where it is ready; and what it does.
#[derive(Clone, Copy)]
pub struct LiveThread {
    pub contender: Contender,
    pub doing: Doing,
}
