//! A dump under way.
ghost use Rattle.std.specs.Prelude.{◌≡◌, ◌++◌, ◌<◌, ◌≤◌, List, [], ◌∷◌, length, drop, string_bytes, IfOk, OnOk, IsErrOf};
ghost use Rattle.aps_io.specs.Causes.{Rose};
ghost use Rattle.aps_model.specs.Legal.{IsLegal};
ghost use Rattle.aps_model.specs.Limits.{most_entries, most_partitions};
ghost use Rattle.view_samples.specs.declared.overspent.Overspent.{Overspent};
ghost use Rattle.aps_core.specs.Turn.{with_entry};
ghost use Rattle.view_replay.specs.Retraced.{order_of_run, scenario_of_run, start_of};
ghost use Rattle.view_texts.specs.Piece.{IsTold};
ghost use Rattle.view_value_changes.specs.Dump as spec;
ghost use Rattle.view_value_changes.specs.Dump.{telling_of};
ghost use Rattle.view_value_changes.specs.Moment.{moment_values};
ghost use Rattle.view_value_changes.specs.Retraced.{RetracedFollowsCore};

use crate::changes::add_moment;
use crate::moments::add_values;
use crate::retracing::Retraced;
use crate::told::Told;
use crate::value::Value;
use aps_io::Sink;
use aps_model::{Entry, History, Nanos, NoMemory, Order, PartitionId, PartitionRow, ThreadRow};
use std::alloc::Global;
use view_samples::Overspent;
use view_texts::{TraceFault, make_room};

/// A dump under way: how far the steps were made again, what the entries tell that ended at the last moment, the values that were
/// told last, those that stand now, and how many of the entries that made their partition bankrupt have passed.
#[derive(Drop)]
pub struct Dump {
    pub at: Retraced,
    pub told: Told,
    pub before: Vec<Value>,
    pub now: Vec<Value>,
    pub passed: usize,
}

impl Dump {
    /// A dump that has told nothing. `NoMemory` comes where memory runs out.
    pub fn begin(alloc: Global, history: &History, order: Order) -> Result<Dump, NoMemory>
        requires { length history.now.entries ≤ most_entries }
        ensures at { IfOk result (λ dump. RetracedFollowsCore dump.at) }
        ensures core { IfOk result (λ dump. dump.at.core ≡ start_of history.now order) }
        ensures starts { IfOk result (λ dump. (overspent : List Overspent) → telling_of overspent dump ≡ spec.start_telling overspent) }
    {
        let at = Retraced::begin(alloc, history, order)?;
        Ok(Dump {
            at,
            told: Told::none(),
            before: Vec::new(alloc),
            now: Vec::new(alloc),
            passed: 0,
        })
    }

    /// Makes the steps of these entries, from the first one on, and writes what changes at each moment at which entries end, but for
    /// the last.
    pub fn go_through<K: Sink>(
        &mut self,
        sink: &mut K,
        out: &mut String,
        threads: &[ThreadRow],
        rows: &[PartitionRow],
        overspent: &[Overspent],
        entries: &[Entry],
    ) -> Result<(), TraceFault>
        requires at { RetracedFollowsCore self.old.at }
        requires begins { self.old.at.core.entries ≡ [] }
        requires legal { IsLegal (scenario_of_run self.old.at.core) (order_of_run self.old.at.core) entries.now }
        requires few { length entries.now ≤ self.old.at.core.setup.limit }
        requires few_rows { length rows.now ≤ most_partitions }
        ensures at { OnOk result (RetracedFollowsCore self.new.at) }
        ensures setup { OnOk result (self.new.at.core.setup ≡ self.old.at.core.setup) }
        ensures told { OnOk result (IsTold (K.written sink.old) (K.written sink.new) (string_bytes out.old) (string_bytes out.new)
            (spec.dumped self.old.at.core.setup threads.now rows.now (telling_of overspent.now self.old) entries.now).text) }
        ensures telling { OnOk result (telling_of overspent.now self.new
            ≡ (spec.dumped self.old.at.core.setup threads.now rows.now (telling_of overspent.now self.old) entries.now).telling) }
        ensures fault { IsErrOf result TraceFault.WriteFault → Rose (K.faults sink.old) (K.faults sink.new) }
        ensures later { K.faults sink.old ≤ K.faults sink.new }
    {
        for e in entries {
            self.tell_before(sink, out, threads, rows, e.to)?;
            self.go_on(overspent, e);
        }
        Ok(())
    }

    /// Tells the values of the last moment, where the next entry ends at a later one.
    fn tell_before<K: Sink>(
        &mut self,
        sink: &mut K,
        out: &mut String,
        threads: &[ThreadRow],
        rows: &[PartitionRow],
        moment: Nanos,
    ) -> Result<(), TraceFault>
        requires at { RetracedFollowsCore self.old.at }
        requires few_rows { length rows.now ≤ most_partitions }
        ensures at { OnOk result (self.new.at ≡ self.old.at) }
        ensures told { OnOk result (IsTold (K.written sink.old) (K.written sink.new) (string_bytes out.old) (string_bytes out.new)
            (spec.text_before self.old.at.core.setup threads.now rows.now moment (telling_of [] self.old))) }
        ensures telling { OnOk result ((overspent : List Overspent) → telling_of overspent self.new
            ≡ spec.telling_before self.old.at.core.setup (length rows.now) moment (telling_of overspent self.old)) }
        ensures fault { IsErrOf result TraceFault.WriteFault → Rose (K.faults sink.old) (K.faults sink.new) }
        ensures later { K.faults sink.old ≤ K.faults sink.new }
    {
        if self.at.moment < moment {
            self.tell(out, threads, rows, false)?;
            make_room(sink, out)?;
        }
        Ok(())
    }

    /// Makes the step of the next entry, and notes what it tells.
    fn go_on(&mut self, overspent: &[Overspent], e: &Entry)
        requires at { RetracedFollowsCore self.old.at }
        requires legal { IsLegal (scenario_of_run self.old.at.core) (order_of_run self.old.at.core)
            (self.old.at.core.entries ++ e.now ∷ []) }
        requires room { length self.old.at.core.entries < self.old.at.core.setup.limit }
        ensures at { RetracedFollowsCore self.new.at }
        ensures core { self.new.at.core ≡ with_entry self.old.at.core e.now }
        ensures telling { telling_of overspent.now self.new
            ≡ spec.noted self.old.at.core.setup (telling_of overspent.now self.old) e.now }
    {
        self.at.go_on(e);
        self.told.note_pick(&self.at.core, e);
        self.pass(overspent, e);
    }

    /// Passes the next entry that made its partition bankrupt, where that is this one.
    fn pass(&mut self, overspent: &[Overspent], e: &Entry)
        ensures at { self.new.at ≡ self.old.at }
        ensures before { self.new.before.items ≡ self.old.before.items }
        ensures told { self.new.told ≡ spec.told_with e.now (drop self.old.passed overspent.now) self.old.told }
        ensures left { drop self.new.passed overspent.now ≡ spec.left_with e.now (drop self.old.passed overspent.now) }
    {
        let Some(next) = overspent.get(self.passed) else {
            return;
        };
        if is_of(e, next) {
            self.told.note_overspent(next.partition);
            self.passed += 1;
        }
    }

    /// Tells the values that changed at the last moment, and at the first one all. A moment without a change is left out, but for the
    /// last. Another moment begins.
    pub fn tell(
        &mut self,
        out: &mut String,
        threads: &[ThreadRow],
        rows: &[PartitionRow],
        is_last: bool,
    ) -> Result<(), NoMemory>
        requires at { RetracedFollowsCore self.old.at }
        requires few_rows { length rows.now ≤ most_partitions }
        ensures at { OnOk result (self.new.at ≡ self.old.at) }
        ensures text { OnOk result (string_bytes out.new
            ≡ string_bytes out.old ++ spec.moment_text self.old.at.core.setup threads.now rows.now is_last (telling_of [] self.old)) }
        ensures telling { OnOk result ((overspent : List Overspent) → telling_of overspent self.new
            ≡ spec.moment_told self.old.at.core.setup (length rows.now) (telling_of overspent self.old)) }
    {
        self.stand(rows.len())?;
        add_moment(
            out,
            threads,
            rows,
            self.at.moment,
            is_last,
            &self.before,
            &self.now,
        )?;
        self.told.begin_moment();
        self.before.clear();
        self.before.extend_from_slice(&self.now)
    }

    /// The values that stand now, for so many partitions.
    fn stand(&mut self, count: usize) -> Result<(), NoMemory>
        requires at { RetracedFollowsCore self.old.at }
        requires few { count ≤ most_partitions }
        ensures at { OnOk result (self.new.at ≡ self.old.at) }
        ensures now { OnOk result (self.new.now.items ≡ moment_values self.old.at.core self.old.told count) }
        ensures told { OnOk result (self.new.told ≡ self.old.told) }
        ensures before { OnOk result (self.new.before ≡ self.old.before) }
        ensures passed { OnOk result (self.new.passed ≡ self.old.passed) }
    {
        self.now.clear();
        add_values(
            &mut self.now,
            &self.at.core,
            &self.at.usages,
            &self.told,
            count,
        )
    }
}

/// Whether this entry made its partition bankrupt.
fn is_of(e: &Entry, overspent: &Overspent) -> bool
    ensures { result ≡ spec.made_bankrupt e.now overspent.now }
{
    overspent.moment == e.to && is_billed_to(e, overspent.partition)
}

fn is_billed_to(e: &Entry, p: PartitionId) -> bool
    ensures { result ≡ spec.is_billed_to e.now.billed p }
{
    match e.billed {
        Some(billed) => billed.index() == p.index(),
        None => false,
    }
}
