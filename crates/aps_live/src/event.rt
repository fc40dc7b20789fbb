//! What a caller says of its threads at a step.
use aps_model::ThreadId;

/// What the caller tells of the threads as its processor steps. The thread that ran since the processor's last step waits
/// from then on where the event is `Block`, and is ready otherwise, with the stamp that it had. `Wake` makes a waiting
/// thread ready, with a new stamp; of a thread that doesn't wait it changes nothing.
#[derive(Clone, Copy, Debug, PartialEq, Eq)]
pub enum LiveEvent {
    Stay,
    Block,
    Wake(ThreadId),
}
