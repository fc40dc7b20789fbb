//! The threads that sleep, by their numbers and in buckets.
ghost use Rattle.std.specs.Prelude.{◌≡◌, ℕ, ◌<◌, ◌≤◌, [], length, replicate, slice_index_or, slice_set, IfOk, IfSome, None};
ghost use Rattle.aps_timer.specs.Sleepers.{IsFirstDue, IsNoted, SleepsUntil, all_due, later_due, next_due, sleepers_without};

use crate::buckets::{Buckets, SPAN};
use crate::lines::{add_of_word, moment_of, words_of};
use crate::list::Due;
use crate::sleeper::Sleeper;
use aps_model::{Nanos, NoMemory, ThreadId};
use std::alloc::Global;
use std::marker::Model;

/// The sleeping threads. Contracts see a row with a place for each thread by its number: the moment until which it sleeps,
/// or nothing where it doesn't sleep.
#[derive(Drop)]
pub struct Asleep {
    row: Vec<Option<Nanos>>,
    buckets: Buckets,
    /// nobody sleeps until a later moment of whole ms
    whole: Nanos,
    ghost noted: { IsNoted row.items whole },
}

impl Model for Asleep {
    ghost use Rattle.std.specs.Prelude.{ℕ, List, Option};
    ghost use Rattle.aps_timer.specs.Buckets.{AreKept};

    ghost Value = { List (Option ℕ) };

    ghost view = { λ t. t.row.items };

    ghost invariant = { λ t. AreKept t.row.items t.buckets.lines.items t.buckets.begin t.buckets.further };
}

impl Asleep {
    /// So many threads, none of which sleeps. `NoMemory` comes where there is no room for them.
    pub fn new(alloc: Global, threads: u16) -> Result<Asleep, NoMemory>
        ensures { IfOk result (λ t. t ≡ replicate threads None) }
    {
        let awake: Option<Nanos> = None;
        let row = vec![in alloc; awake; usize::from(threads)]?;
        let buckets = Buckets::new(alloc)?;
        Ok(Asleep {
            row,
            buckets,
            whole: 0,
        })
    }

    /// The thread, which is one of the row and doesn't sleep, sleeps until a moment in ns, which may be an earlier one
    /// than any other.
    pub fn sleep(&mut self, x: ThreadId, until: Nanos)
        requires within { x < length self.old }
        requires awake { slice_index_or self.old x None ≡ None }
        ensures row { self.new ≡ slice_set self.old x (Some until) }
        ensures due { (now : ℕ) → now < until → all_due self.new now ≡ all_due self.old now }
    {
        if until % SPAN == 0 {
            self.whole = self.whole.max(until);
        }
        self.row[x.index()] = Some(until);
        self.buckets.put(x, until);
    }

    /// The moment until which the thread sleeps, in ns; nothing where it doesn't sleep, or isn't one of the row.
    pub fn until(&self, x: ThreadId) -> Option<Nanos>
        ensures { result ≡ slice_index_or self.now x None }
    {
        moment_of(&self.row, x)
    }

    /// From now on the thread, if it is one of the row, sleeps until this moment, in ns, or doesn't sleep, whatever it did
    /// before.
    pub fn set(&mut self, x: ThreadId, until: Option<Nanos>)
        ensures { self.new ≡ slice_set self.old x until }
    {
        let before = self.until(x);
        if before == until || x.index() >= self.row.len() {
            return;
        }
        if let Some(moment) = before {
            self.wake(x, moment);
        }
        if let Some(moment) = until {
            self.sleep(x, moment);
        }
    }

    /// Takes out, and answers, the sleeper with the least moment, then the least number, if that moment is at or
    /// before `now`, in ns. There is none exactly where every sleeper's moment is later. Nothing need rise from call to
    /// call.
    pub fn due_at(&mut self, now: Nanos) -> Option<ThreadId>
        ensures first { IfSome result (λ x. IsFirstDue self.old now x) }
        ensures next { result ≡ next_due (all_due self.old now) }
        ensures others { all_due self.new now ≡ later_due (all_due self.old now) }
        ensures left { self.new ≡ sleepers_without self.old result }
    {
        let sleeper = self.first_due(now)?;
        self.wake(sleeper.thread, sleeper.until);
        Some(sleeper.thread)
    }

    /// All sleepers whose moment is at or before `now`, in the order in which they wake.
    pub fn gather(&self, now: Nanos, due: &mut Due)
        ensures { due.new ≡ all_due self.now now }
    {
        due.clear();
        let last = self.last_due(now);
        for word in 0..words_of(self.row.len()) {
            let bits = self.buckets.may_be_due(word, last);
            add_of_word(&self.row, bits, word, now, due);
        }
    }

    /// The moment before `now` where `now` begins a bucket and nobody sleeps until this very moment, and else `now`. Nobody
    /// sleeps until a moment between the two, so that the bucket that begins there needn't be looked at.
    fn last_due(&self, now: Nanos) -> Nanos
        ensures { (x until : ℕ) → SleepsUntil self.now x until → until ≤ now → until ≤ result }
    {
        if now % SPAN == 0 && self.whole < now {
            now - 1
        } else {
            now
        }
    }

    /// Nobody sleeps until this moment or an earlier one, and from now on nobody is looked for there.
    pub fn pass(&mut self, now: Nanos)
        requires { (x until : ℕ) → SleepsUntil self.old x until → now < until }
        ensures { self.new ≡ self.old }
    {
        self.buckets.pass(&self.row, now);
    }

    /// The sleeper that `due_at` takes out.
    fn first_due(&mut self, now: Nanos) -> Option<Sleeper>
        ensures row { self.new ≡ self.old }
        ensures asleep { IfSome result (λ s. SleepsUntil self.old s.1 s.0) }
        ensures first { IfSome result (λ s. IsFirstDue self.old now s.1) }
        ensures none { result ≡ None → all_due self.old now ≡ [] }
    {
        let sleeper = self.buckets.first(&self.row, now)?;
        if sleeper.until <= now {
            Some(sleeper)
        } else {
            None
        }
    }

    /// The thread, which sleeps until this moment, doesn't sleep any longer.
    fn wake(&mut self, x: ThreadId, until: Nanos)
        requires { slice_index_or self.old x None ≡ Some until }
        ensures { self.new ≡ slice_set self.old x None }
    {
        self.row[x.index()] = None;
        self.buckets.take(x, until);
    }
}
