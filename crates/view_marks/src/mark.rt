//! Which entries are marked on the bars.
ghost use Rattle.std.specs.Prelude.{◌≡◌};
ghost use Rattle.aps_model.specs.Usage.{names};
ghost use Rattle.view_marks.specs.Mark as spec;

use aps_model::{CpuId, Done, Entry};

/// What an entry tells of a message: a server took it, or it waits for one.
#[derive(Clone, Copy, PartialEq, Eq)]
pub enum Message {
    Taken,
    Waits,
}

/// What the entry tells of a message, if it does: one is taken where a send finds its receiver and where a receive finds a
/// message, and waits where a send finds no receiver.
pub fn message_of(e: &Entry) -> Option<Message>
    ensures { result ≡ spec.message_of_done e.now.done }
{
    match e.done {
        Done::SendTo(_) | Done::ReceiveGot(_) => Some(Message::Taken),
        Done::SendBlocked => Some(Message::Waits),
        _ => None,
    }
}

/// Whether the entry ends with a reply that frees a client.
pub fn is_reply(e: &Entry) -> bool
    ensures { result ≡ spec.is_reply e.now.done }
{
    matches!(e.done, Done::ReplyFreed(_))
}

/// Whether the entry flags this processor.
pub fn flags(e: &Entry, c: CpuId) -> bool
    ensures { result ≡ names e.now.flagged c }
{
    match e.flagged {
        Some(flagged) => flagged == c,
        None => false,
    }
}
