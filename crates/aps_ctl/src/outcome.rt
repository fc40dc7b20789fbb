//! What a command does beside the tree and the shape, told by its answer.
ghost use Rattle.std.specs.Prelude.{◌≡◌, List};
ghost use Rattle.aps_model.specs.declared.command.Call.{Call as CallOf};
ghost use Rattle.aps_model.specs.declared.command.CtlView.{CtlView};
ghost use Rattle.aps_model.specs.declared.partition.PartitionRow.{PartitionRow};
ghost use Rattle.aps_model.specs.declared.shape.Shape.{Shape};
ghost use Rattle.aps_model.specs.Command.{perform};
ghost use Rattle.aps_ctl.specs.Outcome.{mark_by, row_change, change_by};

use aps_model::{Answer, Call, ChangeKind};
use aps_tree::Tree;

/// The own mark that a command with this answer sets, if it sets one.
pub fn mark_by(answer: &Answer) -> Option<bool>
    ensures same { result ≡ mark_by answer.now }
    ensures law { (call : CallOf) (rows : List PartitionRow) (shape : Shape) (view : CtlView)
        → answer.now ≡ (perform call rows shape view).answer
        → result ≡ (perform call rows shape view).mark }
{
    match answer {
        Answer::Marked => Some(true),
        Answer::Cleared => Some(false),
        _ => None,
    }
}

/// The change that a command with this answer made, if it made one; `tree` is the tree after it.
pub fn change_by(call: &Call, answer: &Answer, tree: &Tree) -> Option<ChangeKind>
    ensures same { result ≡ change_by call.now answer.now tree.now.rows }
    ensures law { (rows : List PartitionRow) (shape : Shape) (view : CtlView)
        → answer.now ≡ (perform call.now rows shape view).answer
        → tree.now.rows ≡ (perform call.now rows shape view).rows
        → result ≡ (perform call.now rows shape view).change }
{
    match answer {
        Answer::Created(p) => Some(ChangeKind::Created(*p)),
        Answer::Modified => row_change(call, tree),
        Answer::Set => Some(ChangeKind::Parameters),
        _ => None,
    }
}

/// The change of the row that a modify names.
fn row_change(call: &Call, tree: &Tree) -> Option<ChangeKind>
    ensures { result ≡ row_change call.now tree.now.rows }
{
    match call {
        Call::Modify { partition, .. } => match tree.lookup(*partition) {
            None => None,
            Some(p) => Some(ChangeKind::Modified(p)),
        },
        _ => None,
    }
}
