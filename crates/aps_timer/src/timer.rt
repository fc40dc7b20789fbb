//! The timer of a run.
ghost use Rattle.std.specs.Prelude.{◌≡◌, ℕ, ◌+◌, ◌<◌, ◌≤◌, ◌++◌, length, replicate, slice_index_or, slice_set, vec_capacity, IfOk, IfSome, Some, None};
ghost use Rattle.aps_timer.specs.Sleepers.{IsFirstDue, all_due, later_due, next_due, numbers_of, sleepers_without, without_all};

use crate::asleep::Asleep;
use crate::list::Due;
use aps_model::{Nanos, NoMemory, ThreadId};
use std::alloc::Global;
use std::marker::Model;

/// The sleeping threads. Contracts see a row with a place for each thread by its number: the moment, in ns, until which
/// it sleeps, or nothing where it doesn't sleep. All room is taken when a timer is made.
pub struct Timer {
    asleep: Asleep,
    /// those whom `take_due` took out last
    due: Due,
}

// Written out, so that it is proved here alone: a derived drop is proved again in each crate that lets a value go.
impl Drop for Timer {
    fn drop(self) {
        let Self { asleep: _, due: _ } = self;
    }
}

impl Model for Timer {
    ghost use Rattle.std.specs.Prelude.{ℕ, List, Option};

    ghost Value = { List (Option ℕ) };

    ghost view = { λ t. t.asleep };
}

impl Timer {
    /// So many threads, none of which sleeps. `NoMemory` comes where there is no room for them.
    pub fn new(alloc: Global, threads: u16) -> Result<Timer, NoMemory>
        ensures { IfOk result (λ t. t ≡ replicate threads None) }
    {
        let asleep = Asleep::new(alloc, threads)?;
        let due = Due::new(alloc)?;
        Ok(Timer { asleep, due })
    }

    /// The thread, which is one of the row and doesn't sleep, sleeps until a moment in ns, which may be an earlier one
    /// than any other.
    #[inline(always)]
    pub fn sleep(&mut self, x: ThreadId, until: Nanos)
        requires within { x < length self.old }
        requires awake { slice_index_or self.old x None ≡ None }
        ensures row { self.new ≡ slice_set self.old x (Some until) }
        ensures due { (now : ℕ) → now < until → all_due self.new now ≡ all_due self.old now }
    {
        self.asleep.sleep(x, until);
    }

    /// The moment until which the thread sleeps, in ns; nothing where it doesn't sleep, or isn't one of the row.
    #[inline(always)]
    pub fn until(&self, x: ThreadId) -> Option<Nanos>
        ensures { result ≡ slice_index_or self.now x None }
    {
        self.asleep.until(x)
    }

    /// From now on the thread, if it is one of the row, sleeps until this moment, in ns, or doesn't sleep, whatever it did
    /// before.
    #[inline(always)]
    pub fn set(&mut self, x: ThreadId, until: Option<Nanos>)
        ensures { self.new ≡ slice_set self.old x until }
    {
        self.asleep.set(x, until);
    }

    /// Takes out, and answers, the sleeper with the least moment, then the least number, if that moment is at or
    /// before `now`, in ns. There is none exactly where every sleeper's moment is later. Nothing need rise from call to
    /// call.
    pub fn due_at(&mut self, now: Nanos) -> Option<ThreadId>
        ensures first { IfSome result (λ x. IsFirstDue self.old now x) }
        ensures next { result ≡ next_due (all_due self.old now) }
        ensures others { all_due self.new now ≡ later_due (all_due self.old now) }
        ensures left { self.new ≡ sleepers_without self.old result }
    {
        self.asleep.due_at(now)
    }

    /// Takes out all sleepers whose moments are at or before `now`, in ns, and adds their numbers to the list, in order of
    /// moment, then of number, as `due_at` would answer them one after another. The list has room for them. Nothing need
    /// rise from call to call.
    pub fn take_due(&mut self, now: Nanos, woken: &mut Vec<ThreadId>)
        requires room { length woken.old.items + length (all_due self.old now) ≤ vec_capacity woken.old }
        ensures woken { woken.new.items ≡ woken.old.items ++ numbers_of (all_due self.old now) }
        ensures room { vec_capacity woken.new ≡ vec_capacity woken.old }
        ensures left { self.new ≡ without_all self.old (all_due self.old now) }
    {
        self.asleep.gather(now, &mut self.due);
        take_out(&mut self.asleep, &self.due, woken);
        self.asleep.pass(now);
    }
}

/// Takes these sleepers out, and adds their numbers to the list, which has room for them.
fn take_out(asleep: &mut Asleep, due: &Due, woken: &mut Vec<ThreadId>)
    requires room { length woken.old.items + length due.now ≤ vec_capacity woken.old }
    ensures row { asleep.new ≡ without_all asleep.old due.now }
    ensures woken { woken.new.items ≡ woken.old.items ++ numbers_of due.now }
    ensures room { vec_capacity woken.new ≡ vec_capacity woken.old }
{
    for i in 0..due.len() {
        let x = due.at(i).thread;
        asleep.set(x, None);
        woken.push_reserved(x);
    }
}
