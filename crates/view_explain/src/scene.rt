//! A run as it stands after the entries up to a moment.
ghost use Rattle.std.specs.Prelude.{◌≡◌, ◌+◌, ◌-◌, ◌/◌, ◌<◌, ◌≤◌, All, IfOk, IfSome, length, map};
ghost use Rattle.std.specs.List.{range_with_len};
ghost use Rattle.aps_model.specs.Audit.{allowance};
ghost use Rattle.aps_model.specs.Budget.{part_at};
ghost use Rattle.aps_model.specs.Due.{due};
ghost use Rattle.aps_model.specs.History.{IsEntry};
ghost use Rattle.aps_model.specs.Inherit.{facts_of};
ghost use Rattle.aps_model.specs.Partition.{IsRow};
ghost use Rattle.aps_model.specs.SchedulerState.{cpu_at, row_at, thread_at};
ghost use Rattle.aps_model.specs.Shape.{IsShape};
ghost use Rattle.aps_model.specs.Sums.{IsAtMost, IsUsage};
ghost use Rattle.aps_model.specs.Usage.{window_critical, window_used};
ghost use Rattle.laws_runs.specs.Ids.{IsInRange, NamesKnown};
ghost use Rattle.laws_runs.specs.Moments.{moment};
ghost use Rattle.aps_core.specs.Run.{state_of_run};
ghost use Rattle.aps_core.specs.Small.{IsSmall};
ghost use Rattle.view_lives.specs.Doing.{doing_by, is_same_doing};
ghost use Rattle.view_explain.specs.Past as spec;
ghost use Rattle.view_explain.specs.Parts.{part_by, part_by_row};
ghost use Rattle.view_explain.specs.Ties.{newest_server, ties_of};
ghost use Rattle.aps_model.specs.Limits.{last_moment, last_tick, most_entries, most_partitions, most_used, thousandths};

use crate::ties::Ties;
use aps_core::Core;
use aps_merit::{is_candidate, merit_of};
use aps_model::{
    ChannelId, CpuId, CpuNow, Entry, Facts, Merit, Nanos, NoMemory, PartFacts, PartitionId,
    PartitionRow, Scenario, Shape, State, ThreadId, ThreadNow, Usage, has_allowance,
};
use std::alloc::Global;
use std::marker::Model;
use view_lives::{Doing, does};

/// A core after the entries up to a moment, with what ties its threads, and how its partitions stand in the window of the tick in
/// which the last entry ends. Contracts see the scenario and those entries.
#[derive(Drop)]
pub struct Scene {
    core: Core,
    ties: Ties,
    tick: u64,
    usage: Usage,
    parts: Vec<PartFacts>,
}

impl Model for Scene {
    ghost use Rattle.view_explain.specs.Past.{IsSceneOfPast, Past, past_of};

    ghost Value = { Past };

    ghost view = { λ s. past_of s.core };

    ghost invariant = { λ s. IsSceneOfPast (past_of s.core) s.ties s.tick s.usage s.parts.items };
}

impl Scene {
    /// The scene of this core, whose last entry ends at this moment (ns), or 0 where it has none.
    pub fn of(alloc: Global, core: Core, ties: Ties, last: Nanos) -> Result<Scene, NoMemory>
        requires tied { ties ≡ ties_of (state_of_run core) }
        requires last { last ≡ moment core.entries }
        requires early { last ≤ last_moment }
        requires few { length core.entries ≤ most_entries }
        ensures { IfOk result (λ scene. scene ≡ spec.past_of core) }
    {
        let tick = tick_of(&core, last);
        let usage = usage_at(&core, tick);
        let parts = parts_of(alloc, &core, &usage)?;
        Ok(Scene {
            core,
            ties,
            tick,
            usage,
            parts,
        })
    }

    /// What was simulated.
    pub fn scenario(&self) -> &Scenario
        ensures { result.now ≡ self.now.scenario }
    {
        self.core.history().scenario()
    }

    /// The sizes and the policies as they stand.
    pub fn shape(&self) -> &Shape
        ensures same { result.now ≡ (spec.state_of_past self.now).shape }
        ensures fits { IsShape result.now }
    {
        self.core.history().shape()
    }

    /// The rows as they stand.
    pub fn rows(&self) -> &[PartitionRow]
        ensures same { result.now ≡ (spec.state_of_past self.now).rows }
        ensures fit { All IsRow result.now }
    {
        self.core.history().rows()
    }

    /// The entries so far.
    pub fn entries(&self) -> &[Entry]
        ensures same { result.now ≡ self.now.entries }
        ensures few { length result.now ≤ most_entries }
        ensures each { All IsEntry result.now }
    {
        self.core.history().entries()
    }

    /// The tick in which the last entry ends.
    pub fn tick(&self) -> u64
        ensures same { result ≡ spec.tick_in self.now }
        ensures early { result ≤ last_tick }
    {
        self.tick
    }

    /// What the partition used in the window of that tick (ns).
    pub fn used(&self, p: PartitionId) -> Nanos
        ensures { result ≡ window_used (spec.state_of_past self.now).shape self.now.entries (spec.tick_in self.now) p }
    {
        self.usage.used[p.index()]
    }

    /// What of that was critical (ns).
    pub fn critical_used(&self, p: PartitionId) -> Nanos
        ensures { result ≡ window_critical (spec.state_of_past self.now).shape self.now.entries (spec.tick_in self.now) p }
    {
        self.usage.critical[p.index()]
    }

    /// What the partition's budget allows in a window (ns).
    pub fn allowance(&self, p: PartitionId) -> Nanos
        ensures { result ≡ allowance (spec.state_of_past self.now).shape (row_at (spec.state_of_past self.now) p).budget }
    {
        allowance(self.shape(), self.budget(p))
    }

    /// The partition's budget (parts); 0 where there is no such partition.
    pub fn budget(&self, p: PartitionId) -> u16
        ensures same { result ≡ (row_at (spec.state_of_past self.now) p).budget }
        ensures few { result ≤ thousandths }
    {
        match self.rows().get(p.index()) {
            Some(row) => row.budget,
            None => 0,
        }
    }

    /// The partition's critical budget (ns); 0 where there is no such partition.
    pub fn critical_budget(&self, p: PartitionId) -> Nanos
        ensures { result ≡ (row_at (spec.state_of_past self.now) p).critical }
    {
        match self.rows().get(p.index()) {
            Some(row) => row.critical,
            None => 0,
        }
    }

    /// The thread as it stands.
    pub fn thread(&self, x: ThreadId) -> ThreadNow
        ensures same { result ≡ thread_at (spec.state_of_past self.now) x }
        ensures wakes { spec.WakesAt result.state }
        ensures known { NamesKnown self.now.scenario result.state }
    {
        self.core.thread(x)
    }

    /// Whether a thread in this state does this.
    pub fn does(&self, state: &State, doing: &Doing) -> bool
        ensures { result ≡ is_same_doing doing.now (doing_by (spec.state_of_past self.now) state.now) }
    {
        does(&self.core, state, doing)
    }

    /// When the last entry ends (ns); 0 where there is none.
    pub fn last(&self) -> Nanos
        ensures { result ≡ moment self.now.entries }
    {
        end_of(self.entries())
    }

    /// The processor as it stands.
    pub fn cpu(&self, c: CpuId) -> CpuNow
        ensures { result ≡ cpu_at (spec.state_of_past self.now) c }
    {
        self.core.cpu(c)
    }

    /// When the processor steps next (ns).
    pub fn due(&self, c: CpuId) -> Nanos
        requires { c < self.now.scenario.shape.cpus }
        ensures { result ≡ due (spec.state_of_past self.now) self.now.entries c }
    {
        self.core.due(c)
    }

    /// The values that the thread is scheduled and billed by.
    pub fn facts_of(&self, x: ThreadId) -> Facts
        ensures { result ≡ facts_of (spec.state_of_past self.now) x }
    {
        self.ties.facts_of(&self.core, x)
    }

    /// The server that took a message from the channel last, and still works for its sender.
    pub fn newest_server(&self, c: ChannelId) -> Option<ThreadId>
        ensures same { result ≡ newest_server (spec.state_of_past self.now).triples c }
        ensures known { IfSome result (λ server. server < length self.now.scenario.threads) }
    {
        self.ties.newest_server(c)
    }

    /// How the partition stands.
    pub fn part(&self, p: PartitionId) -> PartFacts
        ensures same { result ≡ spec.part_of_past self.now p }
        ensures small { IsSmall result }
    {
        part_at(self.parts.as_slice(), p)
    }

    /// The merit that the thread has now, ready or not.
    pub fn merit(&self, x: ThreadId) -> Merit
        ensures same { result ≡ spec.merit_in self.now x }
        ensures used { result.used ≤ most_used }
        ensures budget { result.budget ≤ thousandths }
    {
        let facts = self.facts_of(x);
        merit_of(facts, self.thread(x).stamp, &self.part(facts.partition))
    }

    /// Whether the thread would be a candidate if it were ready.
    pub fn is_open(&self, x: ThreadId) -> bool
        ensures { result ≡ spec.would_be_candidate self.now x }
    {
        let facts = self.facts_of(x);
        is_candidate(facts, &self.part(facts.partition))
    }
}

/// When the last of these entries ends (ns); 0 where there is none.
pub fn end_of(entries: &[Entry]) -> Nanos
    ensures { result ≡ moment entries.now }
{
    match entries.last() {
        Some(e) => e.to,
        None => 0,
    }
}

/// The tick of a moment.
fn tick_of(core: &Core, moment: Nanos) -> u64
    requires { moment ≤ last_moment }
    ensures same { result ≡ moment / (state_of_run core.now).shape.tick }
    ensures early { result ≤ last_tick }
    ensures wakes { spec.WakesSoon (state_of_run core.now) }
    ensures known { IsInRange core.now.setup.scenario (state_of_run core.now) }
{
    moment / core.history().shape().tick
}

/// The time that a budget allows in a window (ns).
fn allowance(shape: &Shape, budget: u16) -> Nanos
    requires shape { IsShape shape.now }
    requires budget { budget ≤ thousandths }
    ensures { result ≡ allowance shape.now budget }
{
    u64::from(budget) * shape.whole() / u64::from(shape.parts)
}

/// What each partition used in the window at a tick.
fn usage_at(core: &Core, tick: u64) -> Usage
    requires early { tick ≤ last_tick }
    requires few { length core.now.entries ≤ most_entries }
    ensures same { IsUsage (state_of_run core.now).shape.tick (tick + 1 - (state_of_run core.now).shape.window) (tick + 1) core.now.entries result }
    ensures small { IsAtMost most_used result }
{
    let history = core.history();
    let shape = history.shape();
    let end = tick + 1;
    let first = end.saturating_sub(u64::from(shape.window));
    Usage::of(history.entries(), shape.tick, first, end)
}

/// How each partition stands by what it used.
fn parts_of(alloc: Global, core: &Core, usage: &Usage) -> Result<Vec<PartFacts>, NoMemory>
    requires { IsAtMost most_used usage.now }
    ensures same { IfOk result (λ parts. parts.items
        ≡ map (part_by (state_of_run core.now).shape (state_of_run core.now).rows usage.now) (range_with_len 0 (length (state_of_run core.now).rows))) }
    ensures small { IfOk result (λ parts. All IsSmall parts.items) }
    ensures few { length (state_of_run core.now).rows ≤ most_partitions }
{
    let history = core.history();
    let shape = history.shape();
    let rows = history.rows();
    let mut parts = Vec::with_capacity(alloc, rows.len())?;
    for p in 0..rows.len() {
        parts.push(part_by(shape, &rows[p], usage, p))?;
    }
    Ok(parts)
}

/// How a partition with this row stands by what it used.
fn part_by(shape: &Shape, row: &PartitionRow, usage: &Usage, p: usize) -> PartFacts
    requires shape { IsShape shape.now }
    requires row { IsRow row.now }
    requires p { p < most_partitions }
    requires small { IsAtMost most_used usage.now }
    ensures same { result ≡ part_by_row shape.now row.now usage.now p }
    ensures small { IsSmall result }
{
    let used = usage.used[p];
    PartFacts {
        funded: has_allowance(used, row.budget, shape),
        standing: usage.critical[p] < row.critical,
        shut: shape.limit && !has_allowance(used, row.max, shape),
        used,
        budget: row.budget,
    }
}

fn part_at(parts: &[PartFacts], p: PartitionId) -> PartFacts
    requires { All IsSmall parts.now }
    ensures same { result ≡ part_at parts.now p }
    ensures small { IsSmall result }
{
    match parts.get(p.index()) {
        Some(part) => *part,
        None => PartFacts {
            funded: false,
            standing: false,
            shut: true,
            used: 0,
            budget: 0,
        },
    }
}
