//! The sleeping threads, kept in a timer from step to step.
ghost use Rattle.std.specs.Prelude.{◌≡◌, ◌≢◌, ℕ, length, slice_index_or, IfOk, Some, None, false};
ghost use Rattle.aps_core.specs.Sleepers.{sleepers_of, until_at, IsTimed};
ghost use Rattle.aps_core.specs.Touched.{peer_of, is_exit};

use super::Machine;
use super::sync::{is_exit, peer_of};
use aps_model::{Done, Nanos, NoMemory, State, ThreadId};
use aps_timer::Timer;
use std::alloc::Global;

impl Machine {
    /// The moment until which the thread sleeps, if it does.
    fn until_at(&self, x: ThreadId) -> Option<Nanos>
        ensures { result ≡ until_at self.now x }
    {
        match self.task(x).state {
            State::Sleeping(until) => Some(until),
            _ => None,
        }
    }

    /// The sleeping threads in their timer, for which memory is taken.
    pub fn start_timer(&self, alloc: Global) -> Result<Timer, NoMemory>
        ensures { IfOk result (λ timer. timer ≡ sleepers_of self.now) }
    {
        let mut timer = Timer::new(alloc, self.count() as u16)?;
        self.time_all(&mut timer);
        Ok(timer)
    }

    /// The timer has the thread if it sleeps, and only then, whatever it had.
    #[inline(always)]
    pub fn time(&self, timer: &mut Timer, x: ThreadId)
        requires count { length timer.old ≡ length self.now.threads }
        ensures own { IsTimed self.now timer.new x }
        ensures others { (y : ℕ) → IsTimed self.now timer.old y → IsTimed self.now timer.new y }
        ensures count { length timer.new ≡ length timer.old }
    {
        let until = self.until_at(x);
        if timer.until(x) != until {
            timer.set(x, until);
        }
    }

    /// The same of each thread.
    #[inline(never)]
    fn time_all(&self, timer: &mut Timer)
        requires count { length timer.old ≡ length self.now.threads }
        ensures { timer.new ≡ sleepers_of self.now }
    {
        for x in 0..self.count() {
            self.time(timer, ThreadId::at(x));
        }
    }

    /// The same of the thread, if there is one.
    fn time_one(&self, timer: &mut Timer, one: &Option<ThreadId>)
        requires count { length timer.old ≡ length self.now.threads }
        ensures own { (x : ℕ) → one.now ≡ Some x → IsTimed self.now timer.new x }
        ensures others { (y : ℕ) → IsTimed self.now timer.old y → IsTimed self.now timer.new y }
        ensures count { length timer.new ≡ length timer.old }
    {
        if let Some(x) = one {
            self.time(timer, *x);
        }
    }

    /// The same of the thread, if there is one, where the timer hasn't it: one that doesn't sleep now needs no more.
    #[inline(always)]
    fn time_own(&self, timer: &mut Timer, own: &Option<ThreadId>)
        requires count { length timer.old ≡ length self.now.threads }
        requires out { (x : ℕ) → own.now ≡ Some x → slice_index_or timer.old x None ≡ None }
        ensures own { (x : ℕ) → own.now ≡ Some x → IsTimed self.now timer.new x }
        ensures others { (y : ℕ) → IsTimed self.now timer.old y → IsTimed self.now timer.new y }
        ensures count { length timer.new ≡ length timer.old }
    {
        if let Some(x) = own {
            if let Some(until) = self.until_at(*x) {
                timer.sleep(*x, until);
            }
        }
    }

    /// The timer has the sleeping threads after this thread, if there is one, did its operation, where it had all others with
    /// which that has nothing to do, and not this one.
    #[inline(always)]
    pub fn time_done(&self, timer: &mut Timer, own: &Option<ThreadId>, done: &Done)
        requires count { length timer.old ≡ length self.now.threads }
        requires out { (x : ℕ) → own.now ≡ Some x → slice_index_or timer.old x None ≡ None }
        requires tied { is_exit done.now ≡ false → (y : ℕ) → own.now ≢ Some y → peer_of done.now ≢ Some y → IsTimed self.now timer.old y }
        ensures { timer.new ≡ sleepers_of self.now }
    {
        if is_exit(done) {
            self.time_all(timer);
        } else {
            self.time_own(timer, own);
            self.time_one(timer, &peer_of(done));
        }
    }
}
