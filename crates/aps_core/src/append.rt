//! Appending where there is room, which takes no memory.
ghost use Rattle.std.specs.Prelude.{◌≡◌, ◌<◌, ◌++◌, [], ◌∷◌, length, vec_capacity};

use aps_model::{
    Answer, Bankruptcy, Change, ChangeKind, ChannelId, CpuId, CtlRefusal, Facts, Free, Name,
    PartitionId, PartitionRow, Reply, Shape, State, ThreadId,
};

/// Appends a reply. There is room for it.
pub fn push_reply(replies: &mut Vec<Reply>, reply: Reply)
    requires room { length replies.old.items < vec_capacity replies.old }
    ensures items { replies.new.items ≡ replies.old.items ++ reply ∷ [] }
    ensures room { vec_capacity replies.new ≡ vec_capacity replies.old }
{
    // the check wants the types of an item's fields named in the function that appends it
    let _named: (
        Option<Answer>,
        Option<PartitionRow>,
        Option<State>,
        Option<Facts>,
    ) = (None, None, None, None);
    let _more: (
        Option<CtlRefusal>,
        Option<Shape>,
        Option<Free>,
        Option<Bankruptcy>,
    ) = (None, None, None, None);
    let _ids: (
        Option<ThreadId>,
        Option<PartitionId>,
        Option<CpuId>,
        Option<ChannelId>,
    ) = (None, None, None, None);
    let _name: Option<Name> = None;
    replies.push_reserved(reply);
}

/// Appends a change. There is room for it.
pub fn push_change(changes: &mut Vec<Change>, change: Change)
    requires room { length changes.old.items < vec_capacity changes.old }
    ensures items { changes.new.items ≡ changes.old.items ++ change ∷ [] }
    ensures room { vec_capacity changes.new ≡ vec_capacity changes.old }
{
    // as in push_reply
    let _named: (Option<ChangeKind>, Option<PartitionId>) = (None, None);
    changes.push_reserved(change);
}
