//! What the calls answer.
use aps_model::ThreadId;

/// What became of a message that was sent.
#[derive(Clone, Copy, PartialEq, Eq)]
pub enum Sent {
    /// The thread that had waited longest at the channel has it, and holds the sender as its client.
    Delivered(ThreadId),
    /// No thread waited at the channel; the message waits there.
    Blocked,
}

/// What a receive got.
#[derive(Clone, Copy, PartialEq, Eq)]
pub enum Received {
    /// Refused: the caller holds this client and hasn't replied to it.
    Holding { client: ThreadId },
    /// The message of this thread, which the caller holds as its client now.
    Got(ThreadId),
    /// No message waited at the channel; the caller waits there.
    Blocked,
}

/// What a reply did.
#[derive(Clone, Copy, PartialEq, Eq)]
pub enum Replied {
    /// This client waits no longer, and the caller serves nobody.
    Freed(ThreadId),
    /// Refused: the caller holds no client.
    NoClient,
}
