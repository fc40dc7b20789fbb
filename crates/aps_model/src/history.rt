//! The recorded history of a run.
ghost use Rattle.std.specs.Prelude.{◌≡◌, ◌<◌, ◌≤◌, ◌++◌, [], ◌∷◌, length, vec_len, vec_capacity, IfOk, Some, None};

use crate::command::{Answer, Change, ChangeKind, CtlRefusal, Reply};
use crate::entry::{Done, End, Entry};
use crate::ids::{ChannelId, CpuId, NoMemory, PartitionId, ThreadId};
use crate::name::Name;
use crate::partition::PartitionRow;
use crate::scenario::Scenario;
use crate::shape::{Bankruptcy, Free, Shape};
use crate::state::{Facts, State};
use std::alloc::Global;
use std::marker::Model;

/// The entries of a run in the order in which the turns were taken, its replies and changes, and the rows, the shape
/// and the end as they stand last. It keeps room for its lists, so that adding to them takes no memory. The type keeps
/// that its rows and its shape have their ranges, and that of each entry `from` is at most `to`, `to` at most
/// 10,000,000,000,000 ns and `to - from` at most 10,000,000 ns.
pub struct History {
    scenario: Scenario,
    entries: Vec<Entry>,
    replies: Vec<Reply>,
    changes: Vec<Change>,
    rows: Vec<PartitionRow>,
    shape: Shape,
    end: Option<End>,
    entry_room: u32,
    reply_room: u16,
    change_room: u32,
}

// Written out, so that it is proved here alone: a derived drop is proved again in each crate that lets a value go.
impl Drop for History {
    fn drop(self) {
        let Self {
            scenario: _,
            entries: _,
            replies: _,
            changes: _,
            rows: _,
            shape: _,
            end: _,
            entry_room: _,
            reply_room: _,
            change_room: _,
        } = self;
    }
}

impl Model for History {
    ghost use Rattle.std.specs.Prelude.{◌≤◌, vec_capacity};
    ghost use Rattle.aps_model.specs.History.{History as Plain, IsHistory, HasRoom};

    ghost Value = { Plain };

    ghost use Rattle.aps_model.specs.HistoryView.{data_of};

    ghost view = { data_of };

    ghost invariant = { λ h. IsHistory (data_of h)
        × HasRoom (data_of h) (vec_capacity h.entries) (vec_capacity h.replies) (vec_capacity h.changes) (vec_capacity h.rows) };
}

impl History {
    ghost use Rattle.aps_model.specs.History.{IsEntry, IsHistory};
    ghost use Rattle.aps_model.specs.Shape.{IsShape};
    ghost use Rattle.aps_model.specs.Partition.{IsRow, rows_with};

    /// Empty lists with this room, the scenario's rows in room for 32, its shape, and no end. `NoMemory` drops the
    /// scenario.
    pub fn begin(
        alloc: Global,
        scenario: Scenario,
        entries: u32,
        replies: u16,
        changes: u32,
    ) -> Result<History, NoMemory>
        ensures { IfOk result (λ h. h ≡ record {
          scenario = scenario;
          entries = [];
          replies = [];
          changes = [];
          rows = scenario.partitions;
          shape = scenario.shape;
          end = None;
          room = record { entries = entries; replies = replies; changes = changes };
        }) }
    {
        let mut rows = Vec::with_capacity(alloc, 32)?;
        rows.extend_from_slice(scenario.partitions())?;
        let shape = *scenario.shape();
        Ok(History {
            scenario,
            entries: Vec::with_capacity(alloc, entries as usize)?,
            replies: Vec::with_capacity(alloc, replies as usize)?,
            changes: Vec::with_capacity(alloc, changes as usize)?,
            rows,
            shape,
            end: None,
            entry_room: entries,
            reply_room: replies,
            change_room: changes,
        })
    }

    /// What was simulated.
    pub fn scenario(&self) -> &Scenario
        ensures { result.now ≡ self.now.scenario }
    {
        &self.scenario
    }

    /// The entries, in the order in which the turns were taken.
    pub fn entries(&self) -> &[Entry]
        ensures same { result.now ≡ self.now.entries }
        ensures keeps { IsHistory self.now }
    {
        self.entries.as_slice()
    }

    /// The replies to the commands that were done, in that order.
    pub fn replies(&self) -> &[Reply]
        ensures same { result.now ≡ self.now.replies }
        ensures keeps { IsHistory self.now }
    {
        self.replies.as_slice()
    }

    /// The changes of rows and parameters, in the order in which they were made.
    pub fn changes(&self) -> &[Change]
        ensures same { result.now ≡ self.now.changes }
        ensures keeps { IsHistory self.now }
    {
        self.changes.as_slice()
    }

    /// The partition rows as they stand last.
    pub fn rows(&self) -> &[PartitionRow]
        ensures same { result.now ≡ self.now.rows }
        ensures keeps { IsHistory self.now }
    {
        self.rows.as_slice()
    }

    /// The shape as it stands last.
    pub fn shape(&self) -> &Shape
        ensures same { result.now ≡ self.now.shape }
        ensures keeps { IsHistory self.now }
    {
        &self.shape
    }

    /// How the run ended, if it has.
    pub fn end(&self) -> Option<End>
        ensures { result ≡ self.now.end }
    {
        self.end
    }

    /// Appends an entry, for which there is room. Its `from` is at most its `to`, `to` at most 10,000,000,000,000 ns and
    /// `to - from` at most 10,000,000 ns. All else stays.
    pub fn add_entry(&mut self, e: Entry)
        requires room { length self.old.entries < self.old.room.entries }
        requires entry { IsEntry e }
        ensures { self.new ≡ record self.old { entries = self.old.entries ++ e ∷ [] } }
    {
        // the check wants the types of an item's fields named in the function that appends it
        let _named: (
            Option<ThreadId>,
            Option<PartitionId>,
            Option<CpuId>,
            Option<Done>,
        ) = (None, None, None, None);
        append(&mut self.entries, e);
    }

    /// Appends a reply, for which there is room. All else stays.
    pub fn add_reply(&mut self, r: Reply)
        requires { length self.old.replies < self.old.room.replies }
        ensures { self.new ≡ record self.old { replies = self.old.replies ++ r ∷ [] } }
    {
        // as in add_entry
        let _named: (
            Option<Answer>,
            Option<PartitionRow>,
            Option<State>,
            Option<Facts>,
        ) = (None, None, None, None);
        let _more: (
            Option<CtlRefusal>,
            Option<Shape>,
            Option<Free>,
            Option<Bankruptcy>,
        ) = (None, None, None, None);
        let _ids: (
            Option<ThreadId>,
            Option<PartitionId>,
            Option<CpuId>,
            Option<ChannelId>,
        ) = (None, None, None, None);
        let _name: Option<Name> = None;
        append(&mut self.replies, r);
    }

    /// Appends a change, for which there is room. All else stays.
    pub fn add_change(&mut self, c: Change)
        requires { length self.old.changes < self.old.room.changes }
        ensures { self.new ≡ record self.old { changes = self.old.changes ++ c ∷ [] } }
    {
        // as in add_entry
        let _named: (Option<ChangeKind>, Option<PartitionId>) = (None, None);
        append(&mut self.changes, c);
    }

    /// Replaces the row of `p`, or appends it where `p` is the number of rows, which it may not exceed. The row's budget
    /// and maximum are at most 1,000, whatever the shape's parts, and its critical budget is at most 64,000,000,000. All
    /// else stays.
    pub fn set_row(&mut self, p: PartitionId, row: PartitionRow)
        requires place { p ≤ length self.old.rows }
        requires row { IsRow row }
        ensures { self.new ≡ record self.old { rows = rows_with self.old.rows p row } }
    {
        let place = p.index();
        if place == self.rows.len() {
            append(&mut self.rows, row);
        } else {
            self.rows[place] = row;
        }
    }

    /// The shape is this one from now on. It has its ranges (`docs/DEFINITIONS.md`, Shape). All else stays.
    pub fn set_shape(&mut self, shape: Shape)
        requires { IsShape shape }
        ensures { self.new ≡ record self.old { shape = shape } }
    {
        self.shape = shape;
    }

    /// The history has ended so. All else stays.
    pub fn set_end(&mut self, end: End)
        ensures { self.new ≡ record self.old { end = Some end } }
    {
        self.end = Some(end);
    }
}

/// Appends an item, for which there is room.
fn append<T>(items: &mut Vec<T>, item: T)
    requires { vec_len items.old < vec_capacity items.old }
    ensures items { items.new.items ≡ items.old.items ++ item ∷ [] }
    ensures room { vec_capacity items.new ≡ vec_capacity items.old }
{
    items.push_reserved(item);
}
