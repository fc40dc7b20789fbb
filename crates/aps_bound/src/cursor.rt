//! Where a tick begins among entries in order of ticks.
ghost use Rattle.std.specs.Prelude.{◌≡◌, ℕ, ◌+◌, ◌*◌, ◌<◌, ◌≤◌, ◌^◌, All, length, take, slice_index_or, true, false};
ghost use Rattle.std.specs.List.Sorted.{IsNonDecreasingBy};
ghost use Rattle.aps_model.specs.declared.entry.Entry.{Entry as EntryOf};
ghost use Rattle.aps_model.specs.History.{IsEntry};
ghost use Rattle.aps_bound.specs.Cursor.{HasAllOf, IsCursor, IsInTick};
ghost use Rattle.aps_bound.specs.Order.{IsInOrder};

use aps_model::{Entry, Nanos};

/// A tick, and its place among the entries: those before it ended by the tick's beginning, and no other did.
#[derive(Clone, Copy)]
pub struct Cursor {
    pub tick: u64,
    place: usize,
}

impl Cursor {
    /// The cursor of this tick, where a tick has so many ns.
    pub fn at(entries: &[Entry], tick: u64, ns: u64) -> Cursor
        requires order { IsInOrder ns entries.now }
        requires begin { tick * ns < 2 ^ 63 }
        ensures cursor { IsCursor ns entries.now result }
        ensures tick { result.tick ≡ tick }
    {
        Cursor {
            tick,
            place: place_after(entries, tick * ns),
        }
    }

    /// The entries that can lie in the cursor's tick, which has so many ns: none of them lies in any other tick. The cursor
    /// then stands at the next tick.
    pub fn advance<'a>(&mut self, entries: &'a [Entry], ns: u64) -> &'a [Entry]
        requires entries { All IsEntry entries.now }
        requires order { IsInOrder ns entries.now }
        requires cursor { IsCursor ns entries.now self.old }
        requires some { 0 < ns }
        requires end { (self.old.tick + 1) * ns < 2 ^ 63 }
        ensures cursor { IsCursor ns entries.now self.new }
        ensures tick { self.new.tick ≡ self.old.tick + 1 }
        ensures entries { All IsEntry result.now }
        ensures few { length result.now ≤ length entries.now }
        ensures inside { All (IsInTick ns self.old.tick) result.now }
        ensures whole { HasAllOf ns self.old.tick entries.now result.now }
    {
        let from = self.place;
        self.tick += 1;
        self.place = past(entries, from, self.tick * ns);
        &entries[from..self.place]
    }
}

/// How many entries, from the front, ended by this moment, where so many did.
fn past(entries: &[Entry], from: usize, moment: Nanos) -> usize
    requires within { from ≤ length entries.now }
    requires past { All (λ e. e.to ≤ moment) (take from entries.now) }
    ensures further { from ≤ result }
    ensures within { result ≤ length entries.now }
    ensures past { All (λ e. e.to ≤ moment) (take result entries.now) }
    ensures next { (d : EntryOf) → result < length entries.now → moment < (slice_index_or entries.now result d).to }
{
    let mut next = from;
    while next < entries.len() && entries[next].to <= moment {
        next += 1;
    }
    next
}

/// The same, where the entries are in order: it is found by halves.
fn place_after(entries: &[Entry], moment: Nanos) -> usize
    requires rising { IsNonDecreasingBy (λ (e : EntryOf). e.to) entries.now }
    ensures within { result ≤ length entries.now }
    ensures past { All (λ e. e.to ≤ moment) (take result entries.now) }
    ensures next { (d : EntryOf) → result < length entries.now → moment < (slice_index_or entries.now result d).to }
{
    let mut low = 0;
    let mut high = entries.len();
    while low < high {
        let middle = low + (high - low) / 2;
        if has_ended(&entries[middle], moment) {
            low = middle + 1;
        } else {
            high = middle;
        }
    }
    low
}

/// Whether the entry ended by this moment.
fn has_ended(e: &Entry, moment: Nanos) -> bool
    ensures yes { result ≡ true → e.now.to ≤ moment }
    ensures no { result ≡ false → moment < e.now.to }
{
    e.to <= moment
}
