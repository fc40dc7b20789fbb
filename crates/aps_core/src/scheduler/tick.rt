//! The work of a tick: its commands, and then the wakes.
ghost use Rattle.std.specs.Prelude.{◌≡◌, ◌≢◌, ℕ, ◌/◌, ◌++◌, [], ◌∷◌, false};
ghost use Rattle.aps_model.specs.declared.entry.Entry.{Entry as EntryOf};
ghost use Rattle.aps_model.specs.Inherit.{facts_of};
ghost use Rattle.aps_model.specs.TickWork.{has_tick_work, tick_work};
ghost use Rattle.aps_core.specs.Counts.{Counts};
ghost use Rattle.aps_core.specs.Kept.{KeepsFrame};
ghost use Rattle.aps_core.specs.Pending.{IsPending};
ghost use Rattle.aps_core.specs.Scheduler.{CanBeginTick, IsTickOf};
ghost use Rattle.aps_core.specs.Seats.{seat_at};
ghost use Rattle.aps_core.specs.Sleepers.{sleepers_of};
ghost use Rattle.aps_core.specs.Touched.{woke};

use super::Scheduler;
use aps_model::{Entry, Nanos, Scenario};

impl Scheduler {
    /// The same as `work_tick`, where it is told whether this tick is later than that of the last entry. If it isn't, and
    /// there is an entry, nothing is left to be done, and nothing is looked at.
    #[inline(always)]
    pub fn begin_tick(
        &mut self,
        scenario: &Scenario,
        entries: &[Entry],
        now: Nanos,
        tick: u64,
        is_later: bool,
    ) -> bool
        requires done { is_later ≡ false → entries.now ≢ [] → has_tick_work self.old.machine entries.now now ≡ false }
        requires work { CanBeginTick scenario.now entries.now now tick self.old }
        ensures same { self.new.machine ≡ tick_work scenario.now self.old.machine entries.now now }
        ensures timed { self.new.timer ≡ sleepers_of self.new.machine }
        ensures idle { result ≡ false → (x : ℕ) → woke self.new.woken x ≡ false → seat_at self.new.machine x ≡ seat_at self.old.machine x }
        ensures kept { result ≡ false → KeepsFrame self.old.machine self.new.machine }
        ensures facts { result ≡ false → (x : ℕ) → facts_of self.new.machine x ≡ facts_of self.old.machine x }
        ensures window { result ≡ false → self.new.window ≡ self.old.window }
        ensures counts { Counts self.new.machine.shape entries.now (now / self.old.machine.shape.tick) self.new.window }
        ensures pending { (e : EntryOf) → e.to ≡ now
            → IsPending scenario.now self.old.machine.shape.tick (entries.now ++ e ∷ []) self.new.ctl }
        ensures others { IsTickOf self.old self.new }
    {
        if is_later || entries.is_empty() {
            return self.work_tick(scenario, entries, now, tick);
        }
        self.woken.clear();
        false
    }

    /// The work of this tick, if it begins with this step: the commands of the tick, and then the wakes, from the timer,
    /// which then has the sleepers that are left. The answer is whether there was a command; else no thread's seat changes
    /// but of those who woke, who are told, and no thread inherits other values than before.
    fn work_tick(&mut self, scenario: &Scenario, entries: &[Entry], now: Nanos, tick: u64) -> bool
        requires { CanBeginTick scenario.now entries.now now tick self.old }
        ensures same { self.new.machine ≡ tick_work scenario.now self.old.machine entries.now now }
        ensures timed { self.new.timer ≡ sleepers_of self.new.machine }
        ensures idle { result ≡ false → (x : ℕ) → woke self.new.woken x ≡ false → seat_at self.new.machine x ≡ seat_at self.old.machine x }
        ensures kept { result ≡ false → KeepsFrame self.old.machine self.new.machine }
        ensures facts { result ≡ false → (x : ℕ) → facts_of self.new.machine x ≡ facts_of self.old.machine x }
        ensures window { result ≡ false → self.new.window ≡ self.old.window }
        ensures counts { Counts self.new.machine.shape entries.now (now / self.old.machine.shape.tick) self.new.window }
        ensures pending { (e : EntryOf) → e.to ≡ now
            → IsPending scenario.now self.old.machine.shape.tick (entries.now ++ e ∷ []) self.new.ctl }
        ensures others { IsTickOf self.old self.new }
    {
        if self.machine.has_tick_work(entries, now, tick) {
            let commanded = self
                .machine
                .do_commands(entries, &mut self.window, &mut self.ctl, tick);
            self.machine
                .wake_all(scenario, now, &mut self.timer, &mut self.woken);
            return commanded;
        }
        self.woken.clear();
        false
    }
}
