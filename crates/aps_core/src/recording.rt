//! What a step of the machine recorded goes into the history.
ghost use Rattle.std.specs.Prelude.{◌≡◌, ◌<◌, ◌≤◌, ◌++◌, List, [], ◌∷◌, length, All, None, false};
ghost use Rattle.aps_model.specs.declared.command.Change.{Change as ChangeOf};
ghost use Rattle.aps_model.specs.declared.command.Reply.{Reply as ReplyOf};
ghost use Rattle.aps_model.specs.After.{is_at_horizon, or_limit, over_by};
ghost use Rattle.aps_model.specs.History.{IsEntry};
ghost use Rattle.aps_model.specs.Limits.{most_partitions};
ghost use Rattle.aps_model.specs.Partition.{IsRow};
ghost use Rattle.aps_core.specs.CanRecord.{CanRecord, HasTold, with_told};
ghost use Rattle.aps_core.specs.LastEnds.{AreEnds, IsLast};
ghost use Rattle.aps_core.specs.Run.{with_last};

use crate::ends::Ends;
use crate::machine::Machine;
use crate::scheduler::Stepped;
use aps_model::{Change, End, Entry, History, PartitionId, PartitionRow, Reply};

/// The history has the entry of a step that left this machine, all that the machine has recorded, and the end of the
/// run if that has come: by a reboot for the partition, at the horizon, or by the limit.
#[inline(always)]
pub fn record(history: &mut History, made: Stepped, machine: &Machine, ends: &Ends, limit: u32)
    requires room { length history.old.entries < history.old.room.entries }
    requires entry { IsEntry made.entry }
    requires goes_on { history.old.end ≡ None }
    requires machine { CanRecord history.old machine.now }
    requires told { made.is_changed ≡ false → HasTold history.old machine.now }
    requires ends { AreEnds (history.old.entries ++ made.entry ∷ []) ends.now }
    requires cpu { made.entry.cpu < length machine.now.cpus }
    ensures { history.new ≡ with_last history.old limit made.reboot machine.now made.entry }
{
    tell(history, machine, made.is_changed);
    history.add_entry(made.entry);
    let entries = history.entries();
    if let Some(end) = end_after(machine, ends, made.reboot, entries, &made.entry, limit) {
        history.set_end(end);
    }
}

/// The history has the replies, the changes, the rows and the shape of the machine. Where nothing of that changed, it had
/// them.
#[inline(always)]
fn tell(history: &mut History, machine: &Machine, is_changed: bool)
    requires machine { CanRecord history.old machine.now }
    requires told { is_changed ≡ false → HasTold history.old machine.now }
    ensures { history.new ≡ with_told history.old machine.now }
{
    if is_changed {
        tell_all(history, machine);
    }
}

/// The same, whatever changed. It stands apart, since few steps change anything of it.
#[inline(never)]
fn tell_all(history: &mut History, machine: &Machine)
    requires { CanRecord history.old machine.now }
    ensures { history.new ≡ with_told history.old machine.now }
{
    add_replies(history, machine.replies());
    add_changes(history, machine.changes());
    set_rows(history, machine.rows());
    history.set_shape(*machine.shape());
}

/// The history has these replies, which are its own and more.
fn add_replies(history: &mut History, replies: &[Reply])
    requires more { (more : List ReplyOf) × (replies.now ≡ history.old.replies ++ more) }
    requires room { length replies.now ≤ history.old.room.replies }
    ensures { history.new ≡ record history.old { replies = replies.now } }
{
    for i in history.replies().len()..replies.len() {
        history.add_reply(replies[i]);
    }
}

/// The history has these changes, which are its own and more.
fn add_changes(history: &mut History, changes: &[Change])
    requires more { (more : List ChangeOf) × (changes.now ≡ history.old.changes ++ more) }
    requires room { length changes.now ≤ history.old.room.changes }
    ensures { history.new ≡ record history.old { changes = changes.now } }
{
    for i in history.changes().len()..changes.len() {
        history.add_change(changes[i]);
    }
}

/// The history has these rows, of which there are no fewer than before.
fn set_rows(history: &mut History, rows: &[PartitionRow])
    requires no_fewer { length history.old.rows ≤ length rows.now }
    requires few { length rows.now ≤ most_partitions }
    requires rows { All IsRow rows.now }
    ensures { history.new ≡ record history.old { rows = rows.now } }
{
    for p in 0..rows.len() {
        history.set_row(PartitionId::at(p), rows[p]);
    }
}

/// The end of a run that has these entries, of which this is the last, and left this machine, and perhaps a partition for
/// which it ends.
fn end_after(
    machine: &Machine,
    ends: &Ends,
    reboot: Option<PartitionId>,
    entries: &[Entry],
    last: &Entry,
    limit: u32,
) -> Option<End>
    requires entries { All IsEntry entries.now }
    requires ends { AreEnds entries.now ends.now }
    requires last { IsLast entries.now last.now }
    requires cpu { last.now.cpu < length machine.now.cpus }
    ensures { result ≡ or_limit (over_by reboot (is_at_horizon machine.now entries.now)) limit (length entries.now) }
{
    if let Some(p) = reboot {
        Some(End::Reboot(p))
    } else if machine.is_at_horizon_after(entries, ends, last) {
        Some(End::Horizon)
    } else if entries.len() == limit as usize {
        Some(End::Limit)
    } else {
        None
    }
}
