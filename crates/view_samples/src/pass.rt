//! One pass over the entries of a recorded history, which gives the sample of one finished tick after the other. It keeps what
//! it needs of the last 400 ticks, however long the history is.
ghost use Rattle.std.specs.Prelude.{◌≡◌, ◌+◌, ◌/◌, ◌<◌, ◌≤◌, length, take, IfOk};
ghost use Rattle.aps_model.specs.After.{state_after};
ghost use Rattle.aps_model.specs.Legal.{IsLegal};
ghost use Rattle.aps_model.specs.Loaded.{finished_ticks};
ghost use Rattle.aps_model.specs.Valid.{IsScenario};
ghost use Rattle.view_replay.specs.Retraced.{order_of_run, scenario_of_run};
ghost use Rattle.view_samples.specs.Look.{IsLook};
ghost use Rattle.view_samples.specs.Pass.{BeginsIfMet, GoesUpTo, IsAtTickBegin, IsPassReady, IsUpTo, KeepsNotes, Opens, RunsIn, samples_at_start, entry_at, is_before};
ghost use Rattle.view_samples.specs.Sample.{sample_of};
ghost use Rattle.aps_model.specs.Limits.{last_tick, most_entries, most_partitions};

use crate::lasts::Lasts;
use crate::look::Look;
use crate::note::Note;
use crate::sample::{Sample, sample_at};
use crate::sums::Sums;
use aps_core::Core;
use aps_model::limits::MOST_CPUS;
use aps_model::{Entry, History, NoMemory, Order, PartitionRow};
use std::alloc::Global;
use view_replay::{boot, retrace, retrace_rest, rows_of};

/// How far the pass has come: a core that has made the steps of so many entries again, whether the last pick of each processor
/// was free, and what these entries bill.
#[derive(Drop)]
pub struct Cursor {
    pub core: Core,
    pub next: usize,
    pub free: [bool; MOST_CPUS],
    pub sums: Sums,
}

/// A pass over a recorded history. The sample of tick `tick` comes next: the entries up to its beginning are done, `note` is
/// what is known of it so far, and `lasts` what the ticks before it leave.
#[derive(Drop)]
pub struct Samples {
    pub cursor: Cursor,
    pub note: Note,
    pub lasts: Lasts,
    pub tick: u64,
}

impl Samples {
    /// A pass that begins, over a history that is legal in this order of turns. `NoMemory` comes where memory runs out.
    pub fn begin(alloc: Global, history: &History, order: Order) -> Result<Samples, NoMemory>
        requires legal { IsLegal history.now.scenario order history.now.entries }
        requires few { length history.now.entries ≤ most_entries }
        ensures at { IfOk result (λ samples. IsAtTickBegin history.now.entries samples) }
        ensures of { IfOk result (λ samples. scenario_of_run samples.cursor.core ≡ history.now.scenario) }
        ensures first { IfOk result (λ samples. samples.tick ≡ 0) }
    {
        let mut samples = Samples::new(alloc, history, order)?;
        samples.begin_tick(history.entries(), 0);
        Ok(samples)
    }

    /// A pass that has made no step.
    fn new(alloc: Global, history: &History, order: Order) -> Result<Samples, NoMemory>
        requires { length history.now.entries ≤ most_entries }
        ensures same { IfOk result (λ samples. samples ≡ samples_at_start history.now order) }
        ensures valid { IfOk result (λ samples. IsScenario history.now.scenario) }
    {
        let window = history.scenario().shape().window;
        let core = boot(alloc, history, order)?;
        let sums = Sums::new(alloc, window)?;
        Ok(Samples {
            cursor: Cursor {
                core,
                next: 0,
                free: [false; MOST_CPUS],
                sums,
            },
            note: Note::none(),
            lasts: Lasts::none(),
            tick: 0,
        })
    }

    /// The sample of the next tick, which is finished; the one after it comes next then.
    pub fn next(&mut self, history: &History) -> Sample
        requires at { IsAtTickBegin history.now.entries self.old }
        requires of { scenario_of_run self.old.cursor.core ≡ history.now.scenario }
        requires finished { self.old.tick < finished_ticks history.now.scenario.shape history.now.entries }
        requires few { self.old.tick < last_tick }
        ensures same { result ≡ sample_of history.now.scenario history.now.entries self.old.tick }
        ensures at { IsAtTickBegin history.now.entries self.new }
        ensures of { scenario_of_run self.new.cursor.core ≡ history.now.scenario }
        ensures next { self.new.tick ≡ self.old.tick + 1 }
    {
        let entries = history.entries();
        let end = (self.tick + 1) * history.scenario().shape().tick;
        self.go_through(entries, end);
        let note = self.note;
        self.lasts.pass(&note, self.tick);
        self.begin_tick(entries, end);
        self.cursor.sums.resize(note.window);
        let sample = sample_at(history, &note, &self.lasts, &self.cursor.sums, self.tick);
        self.cursor.sums.go_on();
        self.tick += 1;
        sample
    }

    /// The partition rows that all entries of the history leave; the pass ends with that. `NoMemory` comes where memory runs out.
    pub fn last_rows(self, alloc: Global, history: &History) -> Result<Vec<PartitionRow>, NoMemory>
        requires at { IsAtTickBegin history.now.entries self }
        requires of { scenario_of_run self.cursor.core ≡ history.now.scenario }
        ensures same { IfOk result (λ rows. rows.items ≡ (state_after history.now.scenario history.now.entries).rows) }
        ensures few { IfOk result (λ rows. length rows.items ≤ most_partitions) }
    {
        let Cursor { mut core, next, .. } = self.cursor;
        retrace_rest(&mut core, history.entries(), next);
        rows_of(alloc, &core)
    }

    /// Makes the steps of the entries that end before a moment, and notes their picks. Their time lies in the next tick.
    fn go_through(&mut self, entries: &[Entry], bound: u64)
        requires ready { IsPassReady entries.now self.old }
        requires runs { RunsIn (scenario_of_run self.old.cursor.core).shape.tick entries.now self.old.cursor.next bound self.old.tick }
        ensures up { GoesUpTo entries.now bound self.old self.new }
        ensures notes { KeepsNotes (scenario_of_run self.old.cursor.core) entries.now self.old self.new }
    {
        while is_before(entries, self.cursor.next, bound) {
            let look = self.cursor.go_on(entries, self.tick as u32);
            self.note.add(&look);
        }
    }

    /// Makes the steps of the entries that end at the moment at which a tick begins, and no later, and notes their picks in
    /// a fresh note.
    fn begin_tick(&mut self, entries: &[Entry], moment: u64)
        requires ready { IsPassReady entries.now self.old }
        requires runs { RunsIn (scenario_of_run self.old.cursor.core).shape.tick entries.now self.old.cursor.next (moment + 1)
            self.old.tick }
        requires fits { moment ≤ 1000000000000000 }
        ensures up { GoesUpTo entries.now (moment + 1) self.old self.new }
        ensures begins { BeginsIfMet (scenario_of_run self.old.cursor.core) entries.now moment self.old self.new }
    {
        if is_before(entries, self.cursor.next, moment + 1) {
            self.open(entries);
            self.go_through(entries, moment + 1);
        }
    }

    /// Makes the step of the next entry. The note begins by what stands then, and has its pick.
    fn open(&mut self, entries: &[Entry])
        requires ready { IsPassReady entries.now self.old }
        requires some { self.old.cursor.next < length entries.now }
        requires runs { (entry_at entries.now self.old.cursor.next).from < (entry_at entries.now self.old.cursor.next).to
            → (entry_at entries.now self.old.cursor.next).from / (scenario_of_run self.old.cursor.core).shape.tick ≡ self.old.tick }
        ensures { Opens entries.now self.old self.new }
    {
        let look = self.cursor.go_on(entries, self.tick as u32);
        self.note = Note::fresh(&self.cursor.core);
        self.note.add(&look);
    }
}

impl Cursor {
    /// Makes the step of the next entry, whose time lies in this tick. The answer is what is seen at its pick.
    fn go_on(&mut self, entries: &[Entry], tick: u32) -> Look
        requires valid { IsScenario (scenario_of_run self.old.core) }
        requires legal { IsLegal (scenario_of_run self.old.core) (order_of_run self.old.core) entries.now }
        requires up { IsUpTo (scenario_of_run self.old.core) (order_of_run self.old.core) entries.now tick self.old }
        requires some { self.old.next < length entries.now }
        requires runs { (entry_at entries.now self.old.next).from < (entry_at entries.now self.old.next).to
            → (entry_at entries.now self.old.next).from / (scenario_of_run self.old.core).shape.tick ≡ tick }
        ensures up { IsUpTo (scenario_of_run self.old.core) (order_of_run self.old.core) entries.now tick self.new }
        ensures setup { self.new.core.setup ≡ self.old.core.setup }
        ensures next { self.new.next ≡ self.old.next + 1 }
        ensures look { IsLook (scenario_of_run self.old.core) (take self.old.next entries.now) (entry_at entries.now self.old.next) result }
    {
        let e = &entries[self.next];
        let changes = self.core.history().changes().len();
        retrace(&mut self.core, e);
        let look = Look::at(&self.core, e, changes);
        let cpu = e.cpu.index();
        self.sums.add(e, tick, self.free[cpu]);
        self.free[cpu] = look.free;
        self.next += 1;
        look
    }
}

/// Whether there is an entry at this place, and it ends before the bound.
fn is_before(entries: &[Entry], place: usize, bound: u64) -> bool
    ensures { result ≡ is_before entries.now place bound }
{
    match entries.get(place) {
        Some(e) => e.to < bound,
        None => false,
    }
}
