//! From which thread to which a message or a reply goes.
ghost use Rattle.std.specs.Prelude.{◌≡◌};
ghost use Rattle.view_marks.specs.Arrow as spec;

use aps_model::{Done, Entry, ThreadId};

#[derive(Clone, Copy, PartialEq, Eq)]
pub enum Carried {
    Message,
    Reply,
}

/// What goes from one thread to another at the end of an entry.
#[derive(Clone, Copy, PartialEq, Eq)]
pub struct Arrow {
    pub carried: Carried,
    pub source: ThreadId,
    pub target: ThreadId,
}

/// What goes from a thread to another where the entry ends, if anything does: a message where it is taken, from its sender to its
/// receiver, and a reply to the client that it frees.
pub fn arrow_of(e: &Entry) -> Option<Arrow>
    ensures { result ≡ spec.arrow_of e.now }
{
    match e.ran {
        Some(ran) => arrow_by(ran, &e.done),
        None => None,
    }
}

/// The same, where this thread ran and did that.
fn arrow_by(ran: ThreadId, done: &Done) -> Option<Arrow>
    ensures { result ≡ spec.arrow_by ran done.now }
{
    match done {
        Done::SendTo(receiver) => Some(from_to(Carried::Message, ran, *receiver)),
        Done::ReceiveGot(sender) => Some(from_to(Carried::Message, *sender, ran)),
        Done::ReplyFreed(client) => Some(from_to(Carried::Reply, ran, *client)),
        _ => None,
    }
}

fn from_to(carried: Carried, source: ThreadId, target: ThreadId) -> Arrow
    ensures { result ≡ record { carried = carried; source = source; target = target } }
{
    Arrow {
        carried,
        source,
        target,
    }
}
