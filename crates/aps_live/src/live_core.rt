//! One run of live steps, for one thread.
ghost use Rattle.std.specs.Prelude.{◌≡◌, ◌<◌, ◌≤◌, [], length, replicate, vec_capacity, IfOk, OnOk};
ghost use Rattle.aps_model.specs.Valid.{IsScenario};
ghost use Rattle.aps_window.specs.StandsFor.{StandsFor};
ghost use Rattle.aps_window.specs.Window.{opened};
ghost use Rattle.aps_live.specs.LiveHistory.{NamesThread, entries_of, events_of, latest};
ghost use Rattle.aps_live.specs.LiveState.{live_opening};
ghost use Rattle.aps_live.specs.LiveRun.{IsLiveRun, IsLiveTurn, IsOwn, IsTaken, after_live_turn, with_step};
ghost use Rattle.aps_model.specs.Limits.{last_moment, most_entries};

use crate::append::{push_entry, push_event};
use crate::bills::fill_parts;
use crate::event::LiveEvent;
use crate::machine::LiveMachine;
use crate::pick::{bill_now, bill_of, pick, settle};
use crate::turn::LiveTurn;
use aps_model::{CpuId, Entry, Nanos, NoMemory, PartFacts, Scenario};
use aps_window::Window;
use std::alloc::Global;
use std::marker::Model;

/// A run under way. Contracts see its setup, which is the scenario and the limit, and its steps so far.
pub struct LiveCore {
    scenario: Scenario,
    limit: u32,
    machine: LiveMachine,
    window: Window,
    ends: Vec<Nanos>,
    latest: Nanos,
    parts: Vec<PartFacts>,
    entries: Vec<Entry>,
    events: Vec<LiveEvent>,
}

// Written out, so that it is proved here alone: a derived drop is proved again in each crate that lets a value go.
impl Drop for LiveCore {
    fn drop(self) {
        let Self {
            scenario: _,
            limit: _,
            machine: _,
            window: _,
            ends: _,
            latest: _,
            parts: _,
            entries: _,
            events: _,
        } = self;
    }
}

impl Model for LiveCore {
    ghost use Rattle.aps_live.specs.LiveRun.{LiveRun};

    ghost Value = { LiveRun };

    ghost use Rattle.aps_live.specs.CoreView.{run_of, keeps};

    ghost view = { run_of };

    ghost invariant = { keeps };
}

impl LiveCore {
    /// A run that begins. `limit` is the greatest number of entries, 1 to 4,000,000. All memory of the run is taken here;
    /// where it isn't there the answer is `NoMemory`, and the scenario is dropped.
    pub fn begin(alloc: Global, scenario: Scenario, limit: u32) -> Result<LiveCore, NoMemory>
        requires some { 1 ≤ limit }
        requires few { limit ≤ most_entries }
        ensures { IfOk result (λ core. core ≡ record { setup = record { scenario = scenario; limit = limit }; steps = [] }) }
    {
        let (machine, window) = start_state(alloc, &scenario)?;
        let (ends, parts) = start_rows(alloc, &scenario)?;
        let (entries, events) = start_lists(alloc, limit)?;
        Ok(LiveCore {
            scenario,
            limit,
            machine,
            window,
            ends,
            latest: 0,
            parts,
            entries,
            events,
        })
    }

    /// What is scheduled.
    pub fn scenario(&self) -> &Scenario
        ensures same { result.now ≡ self.now.setup.scenario }
        ensures keeps { IsLiveRun self.now }
    {
        &self.scenario
    }

    /// The entries so far.
    pub fn entries(&self) -> &[Entry]
        ensures same { result.now ≡ entries_of self.now.steps }
        ensures keeps { IsLiveRun self.now }
    {
        self.entries.as_slice()
    }

    /// The events with which they were taken, in that order.
    pub fn events(&self) -> &[LiveEvent]
        ensures same { result.now ≡ events_of self.now.steps }
        ensures keeps { IsLiveRun self.now }
    {
        self.events.as_slice()
    }

    /// One step of the processor at this moment.
    pub fn step(&mut self, cpu: CpuId, now: Nanos, event: LiveEvent) -> LiveTurn
        requires cpu { cpu < self.old.setup.scenario.shape.cpus }
        requires early { now ≤ last_moment }
        requires named { NamesThread self.old.setup.scenario event }
        ensures turn { IsLiveTurn self.old cpu now event result }
        ensures run { self.new ≡ after_live_turn self.old event result }
        ensures own { IsOwn cpu result }
    {
        if now < self.latest {
            return LiveTurn::Back {
                now_seen: self.latest,
            };
        }
        if self.entries.len() == self.limit as usize {
            return LiveTurn::Full;
        }
        LiveTurn::Took(self.take(cpu, now, event))
    }

    /// The step of a run that has room, at a moment that isn't before its latest one.
    fn take(&mut self, cpu: CpuId, now: Nanos, event: LiveEvent) -> Entry
        requires cpu { cpu < self.old.setup.scenario.shape.cpus }
        requires early { now ≤ last_moment }
        requires named { NamesThread self.old.setup.scenario event }
        requires after { latest (entries_of self.old.steps) ≤ now }
        requires room { length self.old.steps < self.old.setup.limit }
        ensures taken { IsTaken self.old cpu now event result }
        ensures run { self.new ≡ with_step self.old result event }
        ensures own { result.cpu ≡ cpu }
    {
        let shape = *self.scenario.shape();
        let running = self.machine.running(cpu);
        let e = bill_of(cpu, self.ends[cpu.index()], now, running);
        bill_now(
            &mut self.window,
            self.entries.as_slice(),
            shape.tick,
            self.latest,
            &e,
        );
        // the check wants a copy of its own of what is handed on twice
        let told = event;
        settle(&mut self.machine, cpu, told);
        fill_parts(
            &shape,
            self.scenario.partitions(),
            &self.window,
            self.entries.as_slice(),
            &e,
            self.parts.as_mut_slice(),
        );
        let taken = pick(&mut self.machine, self.parts.as_slice(), shape.free, cpu, e);
        self.ends[cpu.index()] = now;
        self.latest = now;
        let added = taken;
        push_entry(&mut self.entries, added);
        push_event(&mut self.events, event);
        taken
    }
}

/// The threads and processors at the start, and a window in which nothing is billed.
fn start_state(alloc: Global, scenario: &Scenario) -> Result<(LiveMachine, Window), NoMemory>
    ensures machine { IfOk result (λ r. r.0 ≡ live_opening scenario.now) }
    ensures window { IfOk result (λ r. r.1 ≡ opened scenario.now.shape.window) }
    ensures stands { IfOk result (λ r. StandsFor r.1 []) }
    ensures valid { OnOk result (IsScenario scenario.now) }
{
    let machine = LiveMachine::start(alloc, scenario)?;
    let window = Window::new(alloc, scenario.shape().window)?;
    Ok((machine, window))
}

/// Each processor at 0, and room for how each partition stands at a pick.
fn start_rows(alloc: Global, scenario: &Scenario) -> Result<(Vec<Nanos>, Vec<PartFacts>), NoMemory>
    ensures ends { IfOk result (λ r. r.0.items ≡ replicate scenario.now.shape.cpus 0) }
    ensures parts { IfOk result (λ r. length r.1.items ≡ length scenario.now.partitions) }
{
    let ends = start_ends(alloc, scenario.shape().cpus)?;
    let parts = start_parts(alloc, scenario.partitions().len())?;
    Ok((ends, parts))
}

/// Room for so many entries and events.
fn start_lists(alloc: Global, limit: u32) -> Result<(Vec<Entry>, Vec<LiveEvent>), NoMemory>
    ensures entries { IfOk result (λ r. (r.0.items ≡ []) × (limit ≤ vec_capacity r.0)) }
    ensures events { IfOk result (λ r. (r.1.items ≡ []) × (limit ≤ vec_capacity r.1)) }
{
    let entries = Vec::with_capacity(alloc, limit as usize)?;
    let events = Vec::with_capacity(alloc, limit as usize)?;
    Ok((entries, events))
}

/// Each processor at 0.
fn start_ends(alloc: Global, count: u8) -> Result<Vec<Nanos>, NoMemory>
    ensures { IfOk result (λ v. v.items ≡ replicate count 0) }
{
    let mut ends = Vec::with_capacity(alloc, usize::from(count))?;
    for _ in 0..count {
        ends.push(0)?;
    }
    Ok(ends)
}

/// Room for how each partition stands at a pick.
fn start_parts(alloc: Global, count: usize) -> Result<Vec<PartFacts>, NoMemory>
    ensures { IfOk result (λ v. length v.items ≡ count) }
{
    let mut parts = Vec::with_capacity(alloc, count)?;
    for _ in 0..count {
        parts.push(PartFacts {
            funded: false,
            standing: false,
            shut: false,
            used: 0,
            budget: 0,
        })?;
    }
    Ok(parts)
}
