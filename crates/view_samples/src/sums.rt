//! What each partition was billed in the last ticks, and what of that was critical, and what ran in free time.
ghost use Rattle.std.specs.Prelude.{◌≡◌, ℕ, ◌+◌, ◌-◌, ◌<◌, ◌≤◌, List, IfOk, Some};
ghost use Rattle.aps_model.specs.History.{IsEntry};
ghost use Rattle.aps_model.specs.Limits.{last_tick, longest_window, shortest_window};
ghost use Rattle.aps_window.specs.Window.{advanced, opened, resized};
ghost use Rattle.aps_core.specs.Counts.{critical_in, used_in};
ghost use Rattle.view_samples.specs.Sums.{GoesOnByMarked, HasRoomInTick};

use aps_model::limits::MOST_PARTITIONS;
use aps_model::{Entry, Nanos, NoMemory, PartitionId, Usage};
use aps_window::Window;
use std::alloc::Global;

/// Two windows of ticks with the same bills, and how many ticks count in them. In the first a bill is critical where its entry
/// is, in the second where its entry ran in free time.
#[derive(Drop)]
pub struct Sums {
    pub all: Window,
    pub free: Window,
    pub span: u16,
}

impl Sums {
    /// Nothing billed; the last `window` ticks count, 8 to 400. `NoMemory` comes where memory runs out.
    pub fn new(alloc: Global, window: u16) -> Result<Sums, NoMemory>
        requires least { shortest_window ≤ window }
        requires most { window ≤ longest_window }
        ensures { IfOk result (λ sums. sums ≡ record { all = opened window; free = opened window; span = window }) }
    {
        let all = Window::new(alloc, window)?;
        let free = Window::new(alloc, window)?;
        Ok(Sums {
            all,
            free,
            span: window,
        })
    }

    /// Adds the time of an entry, which ran in the tick at which the windows stand, in free time or not.
    pub fn add(&mut self, e: &Entry, tick: u32, is_free: bool)
        requires entry { IsEntry e.now }
        requires all { HasRoomInTick self.old.all tick e.now }
        requires free { HasRoomInTick self.old.free tick e.now }
        ensures all { GoesOnByMarked self.old.all tick e.now e.now.critical self.new.all }
        ensures free { GoesOnByMarked self.old.free tick e.now is_free self.new.free }
        ensures span { self.new.span ≡ self.old.span }
    {
        add_time(&mut self.all, e, tick, e.critical);
        add_time(&mut self.free, e, tick, is_free);
    }

    /// From now on the last `window` ticks count, 8 to 400.
    pub fn resize(&mut self, window: u16)
        requires least { shortest_window ≤ window }
        requires most { window ≤ longest_window }
        requires all { self.old.all.span ≡ self.old.span }
        requires free { self.old.free.span ≡ self.old.span }
        ensures { self.new ≡ record { all = resized window self.old.all; free = resized window self.old.free; span = window } }
    {
        if window != self.span {
            self.all.resize(window);
            self.free.resize(window);
            self.span = window;
        }
    }

    /// Goes on to the next tick.
    pub fn go_on(&mut self)
        requires all { self.old.all.tick < last_tick }
        requires free { self.old.free.tick < last_tick }
        ensures { self.new ≡ record { all = advanced 1 self.old.all; free = advanced 1 self.old.free; span = self.old.span } }
    {
        self.all.advance(1);
        self.free.advance(1);
    }

    /// What each partition used in the ticks that count, and what of that was critical.
    pub fn usage(&self) -> Usage
        ensures used { result.used ≡ used_in self.now.all }
        ensures critical { result.critical ≡ critical_in self.now.all }
    {
        let mut used = [0; MOST_PARTITIONS];
        let mut critical = [0; MOST_PARTITIONS];
        for p in 0..MOST_PARTITIONS {
            let id = PartitionId::at(p);
            used[p] = self.all.used(id);
            critical[p] = self.all.critical_used(id);
        }
        Usage { used, critical }
    }

    /// What each partition ran in free time in the ticks that count.
    pub fn free_time(&self) -> [Nanos; 32]
        ensures { result ≡ critical_in self.now.free }
    {
        let mut free = [0; MOST_PARTITIONS];
        for p in 0..MOST_PARTITIONS {
            free[p] = self.free.critical_used(PartitionId::at(p));
        }
        free
    }
}

/// Bills the time of an entry, if it takes any, in the tick at which the window stands.
fn add_time(window: &mut Window, e: &Entry, tick: u32, critical: bool)
    requires entry { IsEntry e.now }
    requires room { HasRoomInTick window.old tick e.now }
    ensures { GoesOnByMarked window.old tick e.now critical window.new }
{
    if let Some(p) = e.billed {
        if e.from < e.to {
            window.bill_at(p, tick, e.to - e.from, critical);
        }
    }
}
