//! Where a thread stands in its program.
ghost use Rattle.std.specs.Prelude.{◌≡◌};
ghost use Rattle.aps_tasks.specs.Tasks.{no_task};

use aps_model::{Nanos, State};

/// A thread as it goes through its program: its state, its place there, what remains of its operation in ns (nothing,
/// where that has no end), its stamp, and the ns that it has run since that stamp.
#[derive(Clone, Copy, PartialEq, Eq)]
pub struct Task {
    pub state: State,
    pub place: u16,
    pub left: Option<Nanos>,
    pub stamp: u64,
    pub since: Nanos,
}

/// What is read where there is no such thread.
pub fn no_task() -> Task
    ensures { result ≡ no_task }
{
    Task {
        state: State::Gone,
        place: 0,
        left: None,
        stamp: 0,
        since: 0,
    }
}
