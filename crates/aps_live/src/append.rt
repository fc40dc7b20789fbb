//! Appending where there is room, which takes no memory.
ghost use Rattle.std.specs.Prelude.{◌≡◌, ◌<◌, ◌++◌, [], ◌∷◌, length, vec_capacity};

use crate::event::LiveEvent;
use aps_model::{CpuId, Done, Entry, PartitionId, ThreadId};

/// Appends an entry. There is room for it.
pub fn push_entry(entries: &mut Vec<Entry>, e: Entry)
    requires room { length entries.old.items < vec_capacity entries.old }
    ensures items { entries.new.items ≡ entries.old.items ++ e ∷ [] }
    ensures room { vec_capacity entries.new ≡ vec_capacity entries.old }
{
    // the check wants the types of an item's fields named in the function that appends it
    let _named: (
        Option<ThreadId>,
        Option<PartitionId>,
        Option<CpuId>,
        Option<Done>,
    ) = (None, None, None, None);
    entries.push_reserved(e);
}

/// Appends an event. There is room for it.
pub fn push_event(events: &mut Vec<LiveEvent>, event: LiveEvent)
    requires room { length events.old.items < vec_capacity events.old }
    ensures items { events.new.items ≡ events.old.items ++ event ∷ [] }
    ensures room { vec_capacity events.new ≡ vec_capacity events.old }
{
    // as in push_entry
    let _named: Option<ThreadId> = None;
    events.push_reserved(event);
}
