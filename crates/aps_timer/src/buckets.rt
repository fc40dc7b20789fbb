//! Sleepers in buckets by their moment, and one further list of all others.
ghost use Rattle.std.specs.Prelude.{◌≡◌, ◌≢◌, ℕ, List, Option, ◌%◌, ◌≤◌, ◌/◌, ◌<◌, length, replicate, IfOk, IfSome, Some, None, true, false};
ghost use Rattle.aps_model.specs.Limits.{last_thread};
ghost use Rattle.aps_levels.specs.Bits.{set_has};
ghost use Rattle.aps_timer.specs.Buckets.{AreKept, AreNear, IsFurther, IsNear, IsSleeperPlaced, bucket_count, bucket_of, words_in_all};
ghost use Rattle.aps_timer.specs.Order.{wakes_before};
ghost use Rattle.aps_timer.specs.Sleepers.{SleepsUntil};
ghost use Rattle.aps_timer.specs.Lines.{words_of_line};

use crate::lines::{WORDS, first_in, place};
use crate::sleeper::{Sleeper, first_of};
use aps_levels::Bits64;
use aps_model::{Nanos, NoMemory, ThreadId};
use std::alloc::Global;

/// How long a bucket is, in ns.
pub const SPAN: u64 = 1_000_000;

/// How many buckets there are.
const BUCKETS: u64 = 1024;

/// The line of the further list, behind those of the buckets.
const FURTHER: usize = 1024;

/// Where the threads stand that sleep: in the bucket of their moment, where that isn't before `begin` and the bucket is one of
/// those from `begin` on, and else in the further list, whether their moment is a later or an earlier one.
#[derive(Drop)]
pub struct Buckets {
    lines: Vec<Bits64>,
    /// nobody in the buckets wakes before this moment
    begin: Nanos,
    /// nobody in the further list wakes before this moment
    further: Nanos,
    ghost room: { length lines.items ≡ words_in_all },
}

impl Buckets {
    /// Nobody stands anywhere.
    pub fn new(alloc: Global) -> Result<Buckets, NoMemory>
        ensures { IfOk result (λ b. (threads : ℕ) → AreKept (replicate threads None) b.lines.items b.begin b.further) }
    {
        let lines = vec![in alloc; Bits64::none(); WORDS * (FURTHER + 1)]?;
        Ok(Buckets {
            lines,
            begin: 0,
            further: Nanos::MAX,
        })
    }

    /// The thread, which stands nowhere, sleeps until this moment and stands where it is looked for.
    pub fn put(&mut self, x: ThreadId, until: Nanos)
        requires { IsSleeperPlaced self.old.lines.items self.old.begin self.old.further x None }
        ensures here { IsSleeperPlaced self.new.lines.items self.new.begin self.new.further x (Some until) }
        ensures others { (y : ℕ) (other : Option ℕ)
            → y ≤ last_thread
            → y ≢ x
            → IsSleeperPlaced self.old.lines.items self.old.begin self.old.further y other
            → IsSleeperPlaced self.new.lines.items self.new.begin self.new.further y other }
    {
        if self.begin <= until && bucket_of(until) - bucket_of(self.begin) < BUCKETS {
            place(&mut self.lines, line_until(until), x, true);
        } else {
            place(&mut self.lines, FURTHER, x, true);
            self.further = self.further.min(until);
        }
    }

    /// The thread, which slept until this moment, stands nowhere.
    pub fn take(&mut self, x: ThreadId, until: Nanos)
        requires { IsSleeperPlaced self.old.lines.items self.old.begin self.old.further x (Some until) }
        ensures here { IsSleeperPlaced self.new.lines.items self.new.begin self.new.further x None }
        ensures others { (y : ℕ) (other : Option ℕ)
            → y ≤ last_thread
            → y ≢ x
            → IsSleeperPlaced self.old.lines.items self.old.begin self.old.further y other
            → IsSleeperPlaced self.new.lines.items self.new.begin self.new.further y other }
    {
        place(&mut self.lines, line_until(until), x, false);
        place(&mut self.lines, FURTHER, x, false);
    }

    /// A sleeper of the row before which nobody goes whose moment is at or before `now`.
    pub fn first(&mut self, row: &[Option<Nanos>], now: Nanos) -> Option<Sleeper>
        requires { AreKept row.now self.old.lines.items self.old.begin self.old.further }
        ensures kept { AreKept row.now self.new.lines.items self.new.begin self.new.further }
        ensures one { IfSome result (λ s. SleepsUntil row.now s.1 s.0) }
        ensures others { (x until : ℕ) → SleepsUntil row.now x until → until ≤ now → wakes_before (Some (until, x)) result ≡ false }
    {
        let (begin, near) = first_near(row, &self.lines, self.begin, now);
        let (further, late) = first_further(row, &self.lines, self.further, now);
        self.begin = begin;
        self.further = further;
        first_of(near, late)
    }

    /// Those of a word who can be due at `now`: they stand in one of the buckets up to that of `now`, or in the further list,
    /// where it is time to look for anybody there.
    pub fn may_be_due(&self, word: usize, now: Nanos) -> Bits64
        requires { word < words_of_line }
        ensures { (x until : ℕ) → x / 64 ≡ word → IsSleeperPlaced self.now.lines.items self.now.begin self.now.further x (Some until)
            → until ≤ now → set_has result (x % 64) ≡ true }
    {
        let mut bits = self.late(word, now);
        let (first, last) = (bucket_of(self.begin), bucket_of(now));
        let mut bucket = first;
        while bucket <= last && bucket - first < BUCKETS {
            bits = bits.join(self.lines[WORDS * line_of(bucket) + word]);
            bucket += 1;
        }
        bits
    }

    /// Those of a word who stand in the further list, where anybody in it can be due at `now`.
    fn late(&self, word: usize, now: Nanos) -> Bits64
        requires { word < words_of_line }
        ensures { (x until : ℕ) → x / 64 ≡ word → IsFurther self.now.lines.items self.now.further x until → until ≤ now
            → set_has result (x % 64) ≡ true }
    {
        if now < self.further {
            Bits64::none()
        } else {
            self.lines[WORDS * FURTHER + word]
        }
    }

    /// Nobody of the row sleeps until `now` or an earlier moment: the buckets begin after it.
    pub fn pass(&mut self, row: &[Option<Nanos>], now: Nanos)
        requires kept { AreKept row.now self.old.lines.items self.old.begin self.old.further }
        requires later { (x until : ℕ) → SleepsUntil row.now x until → now < until }
        ensures { AreKept row.now self.new.lines.items self.new.begin self.new.further }
    {
        let (further, _) = first_further(row, &self.lines, self.further, now);
        self.begin = self.begin.max(now.saturating_add(1));
        self.further = further;
    }
}

/// The bucket of a moment.
#[inline(always)]
fn bucket_of(until: Nanos) -> u64
    ensures { result ≡ bucket_of until }
{
    until / SPAN
}

/// The line of the bucket of a moment.
#[inline(always)]
fn line_until(until: Nanos) -> usize
    ensures { result ≡ bucket_of until % bucket_count }
{
    line_of(bucket_of(until))
}

/// The line of a bucket.
fn line_of(bucket: u64) -> usize
    ensures { result ≡ bucket % bucket_count }
{
    (bucket % BUCKETS) as usize
}

/// The first sleeper of the first bucket, at or before that of `now`, in which anybody stands; and the moment before which nobody
/// in the buckets wakes.
fn first_near(
    row: &[Option<Nanos>],
    lines: &[Bits64],
    begin: Nanos,
    now: Nanos,
) -> (Nanos, Option<Sleeper>)
    requires room { length lines.now ≡ words_in_all }
    requires near { AreNear row.now lines.now begin }
    ensures one { IfSome result.1 (λ s. SleepsUntil row.now s.1 s.0) }
    ensures still { (x until : ℕ)
        → x ≤ last_thread
        → SleepsUntil row.now x until
        → IsNear lines.now begin x until
        → IsNear lines.now result.0 x until }
    ensures others { (x until : ℕ) → x ≤ last_thread → SleepsUntil row.now x until → IsNear lines.now begin x until → until ≤ now
        → wakes_before (Some (until, x)) result.1 ≡ false }
{
    let (low, high) = (bucket_of(begin), bucket_of(now));
    let mut bucket = low;
    while bucket <= high && bucket - low < BUCKETS {
        match first_in(row, lines, line_of(bucket), begin) {
            Some(first) => return (begin.max(first.until.min(now)), Some(first)),
            None => bucket += 1,
        }
    }
    (begin.max(now), None)
}

/// The first sleeper of the further list, looked for only where `now` is at or after the moment before which nobody of it
/// wakes; and that moment from then on.
fn first_further(
    row: &[Option<Nanos>],
    lines: &[Bits64],
    further: Nanos,
    now: Nanos,
) -> (Nanos, Option<Sleeper>)
    requires { length lines.now ≡ words_in_all }
    ensures one { IfSome result.1 (λ s. SleepsUntil row.now s.1 s.0) }
    ensures still { (x until : ℕ) → x ≤ last_thread → SleepsUntil row.now x until → IsFurther lines.now further x until
        → IsFurther lines.now result.0 x until }
    ensures others { (x until : ℕ) → x ≤ last_thread → SleepsUntil row.now x until → IsFurther lines.now further x until → until ≤ now
        → wakes_before (Some (until, x)) result.1 ≡ false }
{
    if now < further {
        return (further, None);
    }
    match first_in(row, lines, FURTHER, further) {
        Some(first) => (first.until, Some(first)),
        None => (Nanos::MAX, None),
    }
}
