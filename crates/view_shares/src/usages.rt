//! What each partition used in the last ticks, as a pass over the entries of a history goes on.
ghost use Rattle.std.specs.Prelude.{◌≡◌, ◌/◌, ◌<◌, ◌≤◌, ◌-◌, ◌++◌, List, [], ◌∷◌, IfOk};
ghost use Rattle.aps_model.specs.declared.entry.Entry.{Entry as EntryOf};
ghost use Rattle.aps_model.specs.History.{IsEntry};
ghost use Rattle.aps_model.specs.Limits.{last_tick, longest_window, most_critical, shortest_window};
ghost use Rattle.aps_model.specs.Usage.{window_critical, window_used};
ghost use Rattle.laws_runs.specs.Moments.{moment};
ghost use Rattle.aps_window.specs.Window.{advanced, opened, resized, total_of};
ghost use Rattle.aps_core.specs.Run.{state_of_run};
ghost use Rattle.view_shares.specs.Usages.{GoesOnBy, HasRoomInWindow, AreUsagesCounted, AreUsagesUpTo, for_span};

use aps_core::Core;
use aps_model::{Entry, Nanos, NoMemory, PartitionId};
use aps_window::Window;
use std::alloc::Global;

/// A window of ticks with the bills of all entries so far, and how many ticks count.
#[derive(Drop)]
pub struct Usages {
    pub window: Window,
    pub span: u16,
}

impl Usages {
    /// Nothing billed; the last `span` ticks count, 8 to 400. `NoMemory` comes where memory runs out.
    pub fn new(alloc: Global, span: u16) -> Result<Usages, NoMemory>
        requires least { shortest_window ≤ span }
        requires most { span ≤ longest_window }
        ensures { IfOk result (λ usages. usages ≡ record { window = opened span; span = span }) }
    {
        let window = Window::new(alloc, span)?;
        Ok(Usages { window, span })
    }

    /// Adds the time of the entry that the core made last.
    pub fn add(&mut self, core: &Core, e: &Entry)
        requires last { (before : List EntryOf) × (core.now.entries ≡ before ++ e.now ∷ [])
            × AreUsagesCounted core.now.setup.scenario before self.old }
        ensures { AreUsagesCounted core.now.setup.scenario core.now.entries self.new }
    {
        let tick = core.history().scenario().shape().tick;
        go_on(&mut self.window, (e.to / tick) as u32);
        add_time(&mut self.window, tick, e);
    }

    /// What the partition used of critical time in the last `span` ticks, 8 to 400, which count from now on.
    pub fn used_in(&mut self, p: PartitionId, span: u16) -> Nanos
        requires least { shortest_window ≤ span }
        requires most { span ≤ longest_window }
        requires span { self.old.window.span ≡ self.old.span }
        ensures time { self.new ≡ for_span span self.old }
        ensures same { result ≡ (total_of self.new.window p).critical }
    {
        if span != self.span {
            self.window.resize(span);
            self.span = span;
        }
        self.window.critical_used(p)
    }

    /// As many ticks count as the shape of the core says, which has made the steps of the entries that are counted.
    pub fn resize(&mut self, core: &Core)
        requires { AreUsagesCounted core.now.setup.scenario core.now.entries self.old }
        ensures { AreUsagesUpTo core.now self.new }
    {
        let span = core.history().shape().window;
        fit(&mut self.window, self.span, span);
        self.span = span;
    }

    /// What the partition used in the window that ends with the tick of the core's last entry, in ns.
    pub fn used(&self, core: &Core, p: PartitionId) -> Nanos
        requires { AreUsagesUpTo core.now self.now }
        ensures few { result ≤ most_critical }
        ensures same { result ≡ window_used (state_of_run core.now).shape core.now.entries
            (moment core.now.entries / (state_of_run core.now).shape.tick) p }
    {
        self.window.used(p)
    }

    /// What of it was critical.
    pub fn critical(&self, core: &Core, p: PartitionId) -> Nanos
        requires { AreUsagesUpTo core.now self.now }
        ensures { result ≡ window_critical (state_of_run core.now).shape core.now.entries
            (moment core.now.entries / (state_of_run core.now).shape.tick) p }
    {
        self.window.critical_used(p)
    }
}

/// The window counts `span` ticks, 8 to 400. It counted `before` of them.
fn fit(window: &mut Window, before: u16, span: u16)
    requires before { window.old.span ≡ before }
    requires least { shortest_window ≤ span }
    requires most { span ≤ longest_window }
    ensures { window.new ≡ resized span window.old }
{
    if span != before {
        window.resize(span);
    }
}

/// The window goes on to this tick.
fn go_on(window: &mut Window, tick: u32)
    requires forward { window.old.tick ≤ tick }
    requires few { tick ≤ last_tick }
    ensures { window.new ≡ advanced (tick - window.old.tick) window.old }
{
    let ticks = tick - window.tick();
    if ticks > 0 {
        window.advance(ticks);
    }
}

/// The window has the time of one entry more, if that takes any, where a tick has so many ns.
fn add_time(window: &mut Window, tick: Nanos, e: &Entry)
    requires some { 0 < tick }
    requires entry { IsEntry e.now }
    requires room { HasRoomInWindow tick window.old e.now }
    ensures { GoesOnBy tick window.old e.now window.new }
{
    if let Some(p) = e.billed {
        if e.from < e.to {
            window.bill_at(p, (e.from / tick) as u32, e.to - e.from, e.critical);
        }
    }
}
