//! What each command answers, and what it leaves of the tree and the shape.
ghost use Rattle.std.specs.Prelude.{◌≡◌, Bool, List};
ghost use Rattle.aps_model.specs.declared.partition.PartitionRow.{PartitionRow};
ghost use Rattle.aps_model.specs.declared.shape.Shape.{Shape as ShapeOf};
ghost use Rattle.aps_model.specs.Command.{create_under, modify_found, found, mark_thread, partition_answer, perform, refusal_of, shape_set, statistics_answer, thread_answer};
ghost use Rattle.aps_model.specs.Partition.{partition_named};

use aps_model::{
    Answer, Bankruptcy, Call, CtlRefusal, CtlView, Free, Name, Shape, State, ThreadId, TreeRefusal,
};
use aps_tree::Tree;

/// Does the command over the tree and the shape, and answers it. Budgets and maxima are parts, as many in all as the
/// shape says; critical budgets and used times are ns. `view` holds what each partition used in the window at this
/// moment, by its id, and how the thread stands that the command names, exactly where it names one.
///
/// It is refused with `NoPartition` where no partition has the name that it gives, for a creation the parent's; where
/// the tree refuses it, as the tree does; and with `Gone` where it marks a thread that has exited. A refused command
/// changes nothing. What a command does beside is told by `mark_by` and `change_by`.
pub fn perform(call: &Call, tree: &mut Tree, shape: &mut Shape, view: &CtlView) -> Answer
    requires { tree.old.parts ≡ shape.old.parts }
    ensures answer { result ≡ (perform call.now tree.old.rows shape.old view.now).answer }
    ensures rows { tree.new.rows ≡ (perform call.now tree.old.rows shape.old view.now).rows }
    ensures shape { shape.new ≡ (perform call.now tree.old.rows shape.old view.now).shape }
    ensures parts { tree.new.parts ≡ tree.old.parts }
{
    match call {
        Call::Create {
            name,
            parent,
            budget,
            critical,
            max,
        } => create(tree, *name, *parent, *budget, *critical, *max),
        Call::Modify {
            partition,
            budget,
            critical,
            max,
        } => modify(tree, *partition, *budget, *critical, *max),
        Call::Lookup { partition } => lookup(tree, *partition),
        Call::QueryPartition { partition } => query_partition(tree, *partition, view),
        Call::QueryThread { thread } => query_thread(*thread, view),
        Call::QueryParameters => Answer::Parameters(*shape),
        Call::SetParameters {
            window,
            free,
            limit,
            bankruptcy,
        } => {
            set_parameters(shape, *window, *free, *limit, *bankruptcy);
            Answer::Set
        }
        Call::Statistics { partition } => statistics(tree, *partition, view),
        Call::MarkCritical { .. } => mark(view, Answer::Marked),
        Call::ClearCritical { .. } => mark(view, Answer::Cleared),
    }
}

/// A new partition under the parent of this name.
fn create(tree: &mut Tree, name: Name, parent: Name, budget: u16, critical: u64, max: u16) -> Answer
    ensures answer { (shape : ShapeOf)
        → tree.old.parts ≡ shape.parts
        → result ≡ (create_under tree.old.rows shape name budget critical max (partition_named tree.old.rows parent)).answer }
    ensures rows { (shape : ShapeOf)
        → tree.old.parts ≡ shape.parts
        → tree.new.rows ≡ (create_under tree.old.rows shape name budget critical max (partition_named tree.old.rows parent)).rows }
    ensures parts { tree.new.parts ≡ tree.old.parts }
{
    let Some(under) = tree.lookup(parent) else {
        return Answer::Refused(CtlRefusal::NoPartition);
    };
    match tree.create(name, under, budget, critical, max) {
        Ok(id) => Answer::Created(id),
        Err(why) => Answer::Refused(refusal_of(why)),
    }
}

/// What is given takes the place of what the partition of this name has.
fn modify(
    tree: &mut Tree,
    partition: Name,
    budget: Option<u16>,
    critical: Option<u64>,
    max: Option<u16>,
) -> Answer
    ensures answer { (shape : ShapeOf)
        → tree.old.parts ≡ shape.parts
        → result ≡ (modify_found tree.old.rows shape budget critical max (partition_named tree.old.rows partition)).answer }
    ensures rows { (shape : ShapeOf)
        → tree.old.parts ≡ shape.parts
        → tree.new.rows ≡ (modify_found tree.old.rows shape budget critical max (partition_named tree.old.rows partition)).rows }
    ensures parts { tree.new.parts ≡ tree.old.parts }
{
    let Some(p) = tree.lookup(partition) else {
        return Answer::Refused(CtlRefusal::NoPartition);
    };
    match tree.modify(p, budget, critical, max) {
        Ok(()) => Answer::Modified,
        Err(why) => Answer::Refused(refusal_of(why)),
    }
}

/// The id of the partition of this name.
fn lookup(tree: &Tree, partition: Name) -> Answer
    ensures { result ≡ found (partition_named tree.now.rows partition) }
{
    match tree.lookup(partition) {
        None => Answer::Refused(CtlRefusal::NoPartition),
        Some(p) => Answer::Found(p),
    }
}

/// The row of the partition of this name, and what it used in the window.
fn query_partition(tree: &Tree, partition: Name, view: &CtlView) -> Answer
    ensures { result ≡ partition_answer tree.now.rows view.now (partition_named tree.now.rows partition) }
{
    let Some(id) = tree.lookup(partition) else {
        return Answer::Refused(CtlRefusal::NoPartition);
    };
    let p = id.index();
    Answer::Partition {
        id,
        row: tree.rows()[p],
        used: view.used[p],
        critical_used: view.critical_used[p],
    }
}

/// What the partition of this name used in the window.
fn statistics(tree: &Tree, partition: Name, view: &CtlView) -> Answer
    ensures { result ≡ statistics_answer view.now (partition_named tree.now.rows partition) }
{
    let Some(id) = tree.lookup(partition) else {
        return Answer::Refused(CtlRefusal::NoPartition);
    };
    Answer::Statistics {
        id,
        used: view.used[id.index()],
        critical_used: view.critical_used[id.index()],
    }
}

/// How the thread stands that the command names.
fn query_thread(id: ThreadId, view: &CtlView) -> Answer
    ensures { result ≡ thread_answer id view.now.thread }
{
    match view.thread {
        None => Answer::Refused(CtlRefusal::Gone),
        Some(thread) => Answer::Thread {
            id,
            own: thread.own,
            now: thread.now,
            state: thread.state,
        },
    }
}

/// What is given takes the place of what the shape has.
fn set_parameters(
    shape: &mut Shape,
    window: Option<u16>,
    free: Option<Free>,
    limit: Option<bool>,
    bankruptcy: Option<Bankruptcy>,
)
    ensures { shape.new ≡ shape_set shape.old window free limit bankruptcy }
{
    shape.window = window.unwrap_or(shape.window);
    shape.free = free.unwrap_or(shape.free);
    shape.limit = limit.unwrap_or(shape.limit);
    shape.bankruptcy = bankruptcy.unwrap_or(shape.bankruptcy);
}

/// The answer, unless the named thread is gone.
fn mark(view: &CtlView, answer: Answer) -> Answer
    ensures { (rows : List PartitionRow) (shape : ShapeOf) (on : Bool)
        → result ≡ (mark_thread rows shape on answer view.now.thread).answer }
{
    match view.thread {
        None => Answer::Refused(CtlRefusal::Gone),
        Some(thread) => match thread.state {
            State::Gone => Answer::Refused(CtlRefusal::Gone),
            _ => answer,
        },
    }
}

/// A refusal of the tree, as a command tells it. The range of a critical budget was tested when the scenario was read.
fn refusal_of(why: TreeRefusal) -> CtlRefusal
    ensures { result ≡ refusal_of why }
{
    match why {
        TreeRefusal::NoSuchPartition => CtlRefusal::NoPartition,
        TreeRefusal::NameTaken => CtlRefusal::NameTaken,
        TreeRefusal::TooMany => CtlRefusal::TooMany,
        TreeRefusal::NoParent => CtlRefusal::NoParent,
        TreeRefusal::OverBudget { have } => CtlRefusal::OverBudget { have },
        TreeRefusal::BadCritical => CtlRefusal::NoPartition,
        TreeRefusal::BadMax { partition, least } => CtlRefusal::BadMax { partition, least },
    }
}
