//! Lines in which threads stand, a bit for each, and who of a line wakes first.
ghost use Rattle.std.specs.Prelude.{◌≡◌, ℕ, ◌+◌, ◌*◌, ◌/◌, ◌<◌, ◌≤◌, ◌&&◌, nat_eq, if◌then◌else◌, length, slice_index_or, IfSome, Some, None, true, false};
ghost use Rattle.aps_model.specs.Limits.{last_thread};
ghost use Rattle.aps_levels.specs.Bits.{set_has};
ghost use Rattle.aps_timer.specs.Lines.{IsOfLine, IsOfWord, sleeper_of, stands_in, words_of_line};
ghost use Rattle.aps_timer.specs.Order.{wakes_before};
ghost use Rattle.aps_timer.specs.Sleepers.{SleepsUntil, due_below};

use crate::list::Due;
use crate::sleeper::{Sleeper, first_of, wakes_by};
use aps_levels::Bits64;
use aps_model::{Nanos, ThreadId};

/// How many words a line has, each of 64 threads.
pub const WORDS: usize = 16;

/// From now on the thread stands in the line, or doesn't.
pub fn place(lines: &mut Vec<Bits64>, line: usize, x: ThreadId, is_in: bool)
    requires { words_of_line * line + 15 < length lines.old.items }
    ensures count { length lines.new.items ≡ length lines.old.items }
    ensures stands { (l y : ℕ) → y ≤ last_thread → stands_in lines.new.items l y
        ≡ (if nat_eq l line && nat_eq y x then is_in else stands_in lines.old.items l y) }
{
    let word = WORDS * line + x.index() / 64;
    lines[word] = lines[word].put(x.index() % 64, is_in);
}

/// Of those who stand in a line and sleep the one that wakes first, where nobody does before the moment `begin`: the look
/// ends with the first one who wakes by then.
pub fn first_in(
    row: &[Option<Nanos>],
    lines: &[Bits64],
    line: usize,
    begin: Nanos,
) -> Option<Sleeper>
    requires { words_of_line * line + 15 < length lines.now }
    ensures one { IfSome result (IsOfLine row.now lines.now line) }
    ensures others { (x until : ℕ) → x ≤ last_thread → stands_in lines.now line x ≡ true → SleepsUntil row.now x until → begin ≤ until
        → wakes_before (Some (until, x)) result ≡ false }
{
    let mut first = None;
    for word in 0..words_of(row.len()) {
        first = first_of(
            first,
            first_in_word(row, lines[WORDS * line + word], word, begin),
        );
        if wakes_by(&first, begin) {
            return first;
        }
    }
    first
}

/// How many words of a line have bits of so many threads.
pub fn words_of(threads: usize) -> usize
    ensures few { result ≤ words_of_line }
    ensures enough { (x : ℕ) → x < threads → x ≤ last_thread → x / 64 < result }
{
    if threads < 64 * WORDS {
        threads / 64 + 1
    } else {
        WORDS
    }
}

/// Of those of one word who sleep the one that wakes first, where nobody does before the moment `begin`.
fn first_in_word(row: &[Option<Nanos>], bits: Bits64, word: usize, begin: Nanos) -> Option<Sleeper>
    requires { word < words_of_line }
    ensures one { IfSome result (IsOfWord row.now bits word) }
    ensures others { (k until : ℕ) → k < 64 → set_has bits k ≡ true → SleepsUntil row.now (64 * word + k) until → begin ≤ until
        → wakes_before (Some (until, 64 * word + k)) result ≡ false }
{
    let mut first = None;
    let mut left = bits;
    let mut from = 0;
    while from < 64 {
        match left.least() {
            None => from = 64,
            Some(bit) => {
                let x = ThreadId::at(64 * word + bit);
                first = first_of(first, sleeper_of(x, moment_of(row, x)));
                left = left.without(bit);
                from = bit + 1;
                if wakes_by(&first, begin) {
                    return first;
                }
            }
        }
    }
    first
}

/// The moment until which a thread of the row sleeps.
pub fn moment_of(row: &[Option<Nanos>], x: ThreadId) -> Option<Nanos>
    ensures { result ≡ slice_index_or row.now x None }
{
    if x.index() < row.len() {
        row[x.index()]
    } else {
        None
    }
}

/// The thread as it sleeps until this moment, if it does.
fn sleeper_of(x: ThreadId, until: Option<Nanos>) -> Option<Sleeper>
    ensures { result ≡ sleeper_of x until }
{
    match until {
        Some(until) => Some(Sleeper { until, thread: x }),
        None => None,
    }
}

/// To those who are due of the threads before this word come those of the word whose moment is at or before `now`. They are
/// among those who have these bits.
pub fn add_of_word(row: &[Option<Nanos>], bits: Bits64, word: usize, now: Nanos, due: &mut Due)
    requires few { word < words_of_line }
    requires before { due.old ≡ due_below row.now now (64 * word) }
    requires bits { (k until : ℕ) → k < 64 → SleepsUntil row.now (64 * word + k) until → until ≤ now → set_has bits k ≡ true }
    ensures { due.new ≡ due_below row.now now (64 * word + 64) }
{
    let mut left = bits;
    let mut from = 0;
    while from < 64 {
        match left.least() {
            None => from = 64,
            Some(bit) => {
                add_due(row, ThreadId::at(64 * word + bit), now, due);
                left = left.without_least();
                from = bit + 1;
            }
        }
    }
}

/// To those who are due of the threads before this one comes the thread, if its moment is at or before `now`.
#[inline(always)]
fn add_due(row: &[Option<Nanos>], x: ThreadId, now: Nanos, due: &mut Due)
    requires { due.old ≡ due_below row.now now x }
    ensures { due.new ≡ due_below row.now now (x + 1) }
{
    if let Some(until) = moment_of(row, x) {
        if until <= now {
            due.insert(Sleeper { until, thread: x });
        }
    }
}
