//! The sleepers that wake at a boundary.
ghost use Rattle.std.specs.Prelude.{◌≡◌, ℕ, ◌/◌, ◌%◌, ◌<◌, ◌≤◌, [], length, slice_index_or, IfOk, vec_capacity, None, true, false};
ghost use Rattle.std.specs.Prelude.{nat_eq};
ghost use Rattle.aps_model.specs.Limits.{last_moment, most_threads};
ghost use Rattle.aps_model.specs.TickWork.{has_tick_work, wake_all, waking};
ghost use Rattle.aps_timer.specs.Sleepers.{all_due};
ghost use Rattle.aps_core.specs.Rising.{IsRising};
ghost use Rattle.aps_core.specs.Room.{HasRoomToWake, last_place, stamps_before};
ghost use Rattle.aps_core.specs.Sleepers.{numbers_of, sleepers_of};
ghost use Rattle.aps_core.specs.Touched.{woke};

use super::Machine;
use crate::due;
use aps_model::limits::MOST_THREADS;
use aps_model::{Entry, Nanos, NoMemory, Scenario, ThreadId};
use aps_timer::Timer;
use std::alloc::Global;
use std::marker::Model;

/// The threads that woke, in the order in which they did. There is room for every thread.
#[derive(Drop)]
pub struct Woken {
    list: Vec<ThreadId>,
}

impl Model for Woken {
    ghost use Rattle.std.specs.Prelude.{ℕ, List};

    ghost Value = { List ℕ };

    ghost view = { λ w. w.list.items };

    ghost use Rattle.std.specs.Prelude.{◌≤◌, vec_capacity};
    ghost use Rattle.aps_model.specs.Limits.{most_threads};

    ghost invariant = { λ w. most_threads ≤ vec_capacity w.list };
}

impl Woken {
    /// No threads.
    pub fn new(alloc: Global) -> Result<Self, NoMemory>
        ensures { IfOk result (λ w. w ≡ []) }
    {
        Ok(Woken {
            list: Vec::with_capacity(alloc, MOST_THREADS)?,
        })
    }

    /// The same, so that others can be added.
    pub fn clear(&mut self)
        ensures { self.new ≡ [] }
    {
        self.list.clear();
    }

    /// The sleepers whose moment has come, in order of moment, then of number: they are taken out of the timer.
    fn take_due(&mut self, timer: &mut Timer, now: Nanos)
        requires few { length timer.old ≤ most_threads }
        ensures same { self.new ≡ numbers_of (all_due timer.old now) }
        ensures few { length self.new ≤ most_threads }
        ensures count { length timer.new ≡ length timer.old }
        ensures others { (y : ℕ) → woke self.new y ≡ false → slice_index_or timer.new y None ≡ slice_index_or timer.old y None }
    {
        self.list.clear();
        timer.take_due(now, &mut self.list);
    }

    /// The threads, in that order.
    pub fn as_slice(&self) -> &[ThreadId]
        ensures { result.now ≡ self.now }
    {
        self.list.as_slice()
    }

    /// Whether there are none.
    #[inline(always)]
    pub fn is_empty(&self) -> bool
        ensures none { result ≡ true → self.now ≡ [] }
        ensures some { result ≡ false → 1 ≤ length self.now }
    {
        self.list.is_empty()
    }

    /// How many there are.
    fn len(&self) -> usize
        ensures { result ≡ length self.now }
    {
        self.list.len()
    }

    /// The thread at a place.
    fn at(&self, place: usize) -> ThreadId
        requires { place < length self.now }
        ensures { result ≡ slice_index_or self.now place 0 }
    {
        self.list[place]
    }
}

impl Machine {
    /// The sleepers whose moment has come go on. One whose next operation is a sleep is in the timer again.
    #[inline(never)]
    pub fn wake_all(
        &mut self,
        scenario: &Scenario,
        now: Nanos,
        timer: &mut Timer,
        woken: &mut Woken,
    )
        requires now { now ≤ last_moment }
        requires room { HasRoomToWake last_place stamps_before self.old }
        requires timed { timer.old ≡ sleepers_of self.old }
        ensures same { self.new ≡ wake_all scenario.now now self.old }
        ensures woken { woken.new ≡ numbers_of (waking self.old now) }
        ensures timed { timer.new ≡ sleepers_of self.new }
    {
        // the check wants to see that there are 1,024 threads at most
        let _count = self.tasks.len();
        woken.take_due(timer, now);
        for i in 0..woken.len() {
            let x = woken.at(i);
            self.go_on(scenario, x, now);
            self.time(timer, x);
        }
    }

    /// Whether this is the first step at a boundary below the horizon. The moment lies in this tick.
    pub fn has_tick_work(&self, entries: &[Entry], now: Nanos, tick: u64) -> bool
        requires rising { IsRising entries.now }
        requires tick { tick ≡ now / self.now.shape.tick }
        ensures { result ≡ has_tick_work self.now entries.now now }
    {
        self.is_boundary(now, tick) && now < self.horizon() && !due::is_met(entries, now)
    }

    /// Whether the tick begins at this moment, which lies in it.
    fn is_boundary(&self, now: Nanos, tick: u64) -> bool
        requires { tick ≡ now / self.now.shape.tick }
        ensures { result ≡ nat_eq (now % self.now.shape.tick) 0 }
    {
        tick * self.shape.tick == now
    }
}
