//! The machine: all that one step leaves to the next, beside the history.
ghost use Rattle.std.specs.Prelude.{◌≡◌, ◌≢◌, ◌⊎◌, ◌<◌, ◌≤◌, ◌/◌, length, is_some, All, IfSome, None, true, false};
ghost use Rattle.aps_model.specs.After.{is_at_horizon};
ghost use Rattle.aps_model.specs.Due.{due, first_due, last_to};
ghost use Rattle.aps_model.specs.History.{IsEntry};
ghost use Rattle.aps_model.specs.Limits.{last_moment, last_tick, most_ticks};
ghost use Rattle.aps_model.specs.Shape.{IsShape, horizon};
ghost use Rattle.aps_core.specs.LastEnds.{AreEnds, IsLast};
ghost use Rattle.aps_core.specs.NextDues.{AreDues};

mod asking;
mod bankruptcy;
pub mod bill;
mod commands;
mod effect;
mod flag;
mod inherit;
mod messages;
mod pick;
mod posts;
mod reading;
mod seats;
mod settle;
mod start;
mod sync;
mod threads;
mod timer;
pub mod wake;

use crate::due;
use crate::dues::Dues;
use crate::ends::Ends;
use aps_channel::Channels;
use aps_inherit::Inherit;
use aps_model::{Change, CpuId, CpuNow, Entry, Nanos, PartitionId, PartitionRow, Reply, Shape};
use aps_tasks::TaskTable;
use aps_tree::Tree;
use std::marker::Model;

/// Everything that stands between two steps, beside the history. Contracts see it as the scheduler state of the
/// definitions, and each method is the part of the definitions' step that its clause names.
pub struct Machine {
    tree: Tree,
    shape: Shape,
    tasks: TaskTable,
    channels: Channels,
    inherit: Inherit,
    cpus: Vec<CpuNow>,
    replies: Vec<Reply>,
    changes: Vec<Change>,
}

// Written out, so that it is proved here alone: a derived drop is proved again in each crate that lets a value go.
impl Drop for Machine {
    fn drop(self) {
        let Self {
            tree: _,
            shape: _,
            tasks: _,
            channels: _,
            inherit: _,
            cpus: _,
            replies: _,
            changes: _,
        } = self;
    }
}

impl Model for Machine {
    ghost use Rattle.std.specs.Prelude.{vec_capacity};
    ghost use Rattle.aps_model.specs.SchedulerState.{SchedulerState};
    ghost use Rattle.aps_core.specs.Machine.{IsCoreMachine};

    ghost Value = { SchedulerState };

    ghost use Rattle.aps_core.specs.MachineView.{state_of_machine};

    ghost view = { state_of_machine };

    ghost invariant = { λ m. IsCoreMachine (state_of_machine m) m.channels.threads m.inherit m.tree.parts
        (vec_capacity m.replies) (vec_capacity m.changes) };
}

impl Machine {
    /// When the processor steps next. The tick at hand is that of the end of its last entry.
    pub fn due(&self, entries: &[Entry], ends: &Ends, at_hand: u32, cpu: CpuId) -> Nanos
        requires at_hand { IfSome (last_to entries.now cpu) (λ to. at_hand ≡ to / self.now.shape.tick) }
        requires cpu { cpu < length self.now.cpus }
        requires entries { All IsEntry entries.now }
        requires ends { AreEnds entries.now ends.now }
        ensures { result ≡ due self.now entries.now cpu }
    {
        let now = &self.cpus[cpu.index()];
        let left = match &now.running {
            None => None,
            Some(pick) => self.task(pick.thread).left,
        };
        let last = ends.last_to(entries, cpu);
        due::due_at(&self.shape, u64::from(at_hand), now.flag, last, left)
    }

    /// The lowest of the processors that are due least.
    pub fn first_due(&self, entries: &[Entry], dues: &Dues) -> CpuId
        requires dues { AreDues self.now entries.now dues.now }
        ensures same { result ≡ first_due self.now entries.now self.now.shape.cpus }
        ensures within { result < length self.now.cpus }
    {
        let count = self.cpus.len();
        let mut first = 0;
        let mut least = dues.at(first);
        for c in 1..count {
            let due = dues.at(c);
            if due < least {
                first = c;
                least = due;
            }
        }
        CpuId::at(first)
    }

    /// Whether each processor has stepped at the horizon, where this is the last entry. The others are looked at only if this
    /// one ends there.
    #[inline(always)]
    pub fn is_at_horizon_after(&self, entries: &[Entry], ends: &Ends, last: &Entry) -> bool
        requires entries { All IsEntry entries.now }
        requires ends { AreEnds entries.now ends.now }
        requires last { IsLast entries.now last.now }
        requires cpu { last.now.cpu < length self.now.cpus }
        ensures { result ≡ is_at_horizon self.now entries.now }
    {
        if last.to != self.shape.horizon() {
            return false;
        }
        self.is_at_horizon(entries, ends)
    }

    /// Whether each processor has stepped at the horizon.
    #[inline(never)]
    fn is_at_horizon(&self, entries: &[Entry], ends: &Ends) -> bool
        requires entries { All IsEntry entries.now }
        requires ends { AreEnds entries.now ends.now }
        ensures { result ≡ is_at_horizon self.now entries.now }
    {
        let horizon = self.horizon();
        for c in 0..self.cpus.len() {
            if !due::stands_at(horizon, ends.last_to(entries, CpuId::at(c))) {
                return false;
            }
        }
        true
    }

    /// The tick of a moment. The tick at hand is best that of the moment.
    pub fn tick_of(&self, moment: Nanos, at_hand: u32) -> u64
        requires moment { moment ≤ horizon self.now.shape }
        requires at_hand { at_hand ≤ last_tick }
        ensures same { result ≡ moment / self.now.shape.tick }
        ensures few { result ≤ most_ticks }
    {
        due::tick_of(self.shape.tick, moment, u64::from(at_hand))
    }

    /// The moment at which the run ends.
    pub fn horizon(&self) -> Nanos
        ensures same { result ≡ horizon self.now.shape }
        ensures few { result ≤ last_moment }
    {
        self.shape.horizon()
    }

    /// Whether a step at this moment ends with its bill: by a reboot for the partition, or at the horizon.
    #[inline(always)]
    pub fn is_over(&self, reboot: &Option<PartitionId>, now: Nanos) -> bool
        ensures over { result ≡ true → (is_some reboot.now ≡ true) ⊎ ((reboot.now ≡ None) × (now ≡ horizon self.now.shape)) }
        ensures on { result ≡ false → (reboot.now ≡ None) × (now ≢ horizon self.now.shape) }
    {
        match reboot {
            Some(_) => true,
            None => now == self.horizon(),
        }
    }

    /// How many changes there are so far.
    #[inline(always)]
    pub fn change_count(&self) -> usize
        ensures { result ≡ length self.now.changes }
    {
        self.changes.len()
    }

    /// The replies so far.
    pub fn replies(&self) -> &[Reply]
        ensures { result.now ≡ self.now.replies }
    {
        self.replies.as_slice()
    }

    /// The changes so far.
    pub fn changes(&self) -> &[Change]
        ensures { result.now ≡ self.now.changes }
    {
        self.changes.as_slice()
    }

    /// The rows as they stand.
    pub fn rows(&self) -> &[PartitionRow]
        ensures { result.now ≡ self.now.rows }
    {
        self.tree.rows()
    }

    /// The shape as it stands.
    pub fn shape(&self) -> &Shape
        ensures same { result.now ≡ self.now.shape }
        ensures valid { IsShape self.now.shape }
    {
        &self.shape
    }
}
