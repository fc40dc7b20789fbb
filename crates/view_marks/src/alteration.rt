//! What commands and bankruptcies alter.
ghost use Rattle.std.specs.Prelude.{◌≡◌, ◌++◌, OnOk};
ghost use Rattle.view_marks.specs.Alteration as spec;

use aps_model::{
    Answer, Call, Change, ChangeKind, CommandRow, Name, Nanos, NoMemory, PartitionId, Reply,
    ThreadId,
};

/// What is altered: a partition of this name is created or modified, by a command; parameters are set; a thread is marked as
/// critical, or no longer; a partition's critical budget is cancelled.
#[derive(Clone, Copy, PartialEq, Eq)]
pub enum Altered {
    Create(Name),
    Modify(Name),
    SetParameters,
    MarkCritical(ThreadId),
    ClearCritical(ThreadId),
    Cancel(PartitionId),
}

/// At this moment (ns) this was altered, or refused.
#[derive(Clone, Copy, PartialEq, Eq)]
pub struct Alteration {
    pub moment: Nanos,
    pub altered: Altered,
    pub refused: bool,
}

/// Appends what the commands that have these replies alter, which were done at this moment.
pub fn add_commands(
    alterations: &mut Vec<Alteration>,
    commands: &[CommandRow],
    moment: Nanos,
    replies: &[Reply],
) -> Result<(), NoMemory>
    ensures { OnOk result (alterations.new.items ≡ alterations.old.items ++ spec.by_replies commands.now moment replies.now) }
{
    for reply in replies {
        add(alterations, by_reply(commands, moment, reply))?;
    }
    Ok(())
}

/// Appends the cancellations among these changes, which were made at this moment.
pub fn add_cancels(
    alterations: &mut Vec<Alteration>,
    moment: Nanos,
    changes: &[Change],
) -> Result<(), NoMemory>
    ensures { OnOk result (alterations.new.items ≡ alterations.old.items ++ spec.by_changes moment changes.now) }
{
    for change in changes {
        add(alterations, by_change(moment, change))?;
    }
    Ok(())
}

/// Appends the alteration, if there is one.
fn add(alterations: &mut Vec<Alteration>, alteration: Option<Alteration>) -> Result<(), NoMemory>
    ensures { OnOk result (alterations.new.items ≡ alterations.old.items ++ spec.option_list alteration) }
{
    // the check wants the types of an item's fields named in the function that appends it
    let _named: (
        Option<Altered>,
        Option<Name>,
        Option<ThreadId>,
        Option<PartitionId>,
    ) = (None, None, None, None);
    if let Some(one) = alteration {
        alterations.push(one)?;
    }
    Ok(())
}

/// What the command that has this reply alters, if it can alter anything.
fn by_reply(commands: &[CommandRow], moment: Nanos, reply: &Reply) -> Option<Alteration>
    ensures { result ≡ spec.by_reply commands.now moment reply.now }
{
    let altered = altered_by(&call_at(commands, reply.command))?;
    Some(Alteration {
        moment,
        altered,
        refused: is_refused(&reply.answer),
    })
}

/// The call of the command at this place.
fn call_at(commands: &[CommandRow], place: u16) -> Call
    ensures { result ≡ spec.call_of_command commands.now place }
{
    match commands.get(usize::from(place)) {
        Some(row) => row.call,
        None => Call::QueryParameters,
    }
}

/// What a call alters, if it can alter anything.
fn altered_by(call: &Call) -> Option<Altered>
    ensures { result ≡ spec.altered_by call.now }
{
    match call {
        Call::Create { name, .. } => Some(Altered::Create(*name)),
        Call::Modify { partition, .. } => Some(Altered::Modify(*partition)),
        Call::SetParameters { .. } => Some(Altered::SetParameters),
        Call::MarkCritical { thread } => Some(Altered::MarkCritical(*thread)),
        Call::ClearCritical { thread } => Some(Altered::ClearCritical(*thread)),
        _ => None,
    }
}

fn is_refused(answer: &Answer) -> bool
    ensures { result ≡ spec.is_refused answer.now }
{
    matches!(answer, Answer::Refused(_))
}

/// What a change cancels, if it is a cancellation.
fn by_change(moment: Nanos, change: &Change) -> Option<Alteration>
    ensures { result ≡ spec.by_change moment change.now }
{
    match change.kind {
        ChangeKind::Cancelled(p) => Some(Alteration {
            moment,
            altered: Altered::Cancel(p),
            refused: false,
        }),
        _ => None,
    }
}
