//! A window that slides over entries in order of ticks.
ghost use Rattle.std.specs.Prelude.{◌≡◌, ◌+◌, ◌*◌, ◌<◌, ◌≤◌, ◌^◌, All, length};
ghost use Rattle.aps_model.specs.History.{IsEntry};
ghost use Rattle.aps_model.specs.Limits.{greatest_u32};
ghost use Rattle.aps_bound.specs.Order.{IsInOrder};
ghost use Rattle.aps_bound.specs.Window.{IsUsageWindow};

use crate::cursor::Cursor;
use crate::usage::{add, take_away};
use aps_model::limits::MOST_PARTITIONS;
use aps_model::{Entry, Usage};

/// A window, from its first tick to the one before its end, and the usage in it.
#[derive(Clone, Copy)]
pub struct Window {
    pub first: Cursor,
    pub end: Cursor,
    pub usage: Usage,
}

impl Window {
    /// The window of ticks `a` to `b - 1`. The cost is that of a pass over the entries of these ticks.
    pub fn over(entries: &[Entry], tick: u64, a: u64, b: u64) -> Window
        requires entries { All IsEntry entries.now }
        requires few { length entries.now ≤ greatest_u32 }
        requires order { IsInOrder tick entries.now }
        requires some { 0 < tick }
        requires forward { a ≤ b }
        requires end { b * tick < 2 ^ 63 }
        ensures window { IsUsageWindow tick entries.now result }
        ensures first { result.first.tick ≡ a }
        ensures end { result.end.tick ≡ b }
    {
        let mut window = Window::before(entries, tick, a);
        for count in a..b {
            window.enter(entries, tick);
        }
        window
    }

    /// The window of no ticks, before tick `a`.
    fn before(entries: &[Entry], tick: u64, a: u64) -> Window
        requires order { IsInOrder tick entries.now }
        requires begin { a * tick < 2 ^ 63 }
        ensures window { IsUsageWindow tick entries.now result }
        ensures first { result.first.tick ≡ a }
        ensures end { result.end.tick ≡ a }
    {
        let first = Cursor::at(entries, a, tick);
        Window {
            first,
            end: first,
            usage: Usage {
                used: [0; MOST_PARTITIONS],
                critical: [0; MOST_PARTITIONS],
            },
        }
    }

    /// Moves on by one tick: the tick after the window enters, and its first tick leaves. Over all moves each entry is
    /// added once and taken away once.
    pub fn slide(&mut self, entries: &[Entry], tick: u64)
        requires entries { All IsEntry entries.now }
        requires few { length entries.now ≤ greatest_u32 }
        requires order { IsInOrder tick entries.now }
        requires some { 0 < tick }
        requires window { IsUsageWindow tick entries.now self.old }
        requires end { (self.old.end.tick + 1) * tick < 2 ^ 63 }
        ensures window { IsUsageWindow tick entries.now self.new }
        ensures first { self.new.first.tick ≡ self.old.first.tick + 1 }
        ensures end { self.new.end.tick ≡ self.old.end.tick + 1 }
    {
        self.enter(entries, tick);
        self.leave(entries, tick);
    }

    /// The tick after the window enters.
    fn enter(&mut self, entries: &[Entry], tick: u64)
        requires entries { All IsEntry entries.now }
        requires few { length entries.now ≤ greatest_u32 }
        requires order { IsInOrder tick entries.now }
        requires some { 0 < tick }
        requires window { IsUsageWindow tick entries.now self.old }
        requires end { (self.old.end.tick + 1) * tick < 2 ^ 63 }
        ensures window { IsUsageWindow tick entries.now self.new }
        ensures first { self.new.first.tick ≡ self.old.first.tick }
        ensures end { self.new.end.tick ≡ self.old.end.tick + 1 }
    {
        let end = self.end.tick;
        let entering = self.end.advance(entries, tick);
        add(&mut self.usage, entering, tick, end);
    }

    /// Its first tick leaves.
    fn leave(&mut self, entries: &[Entry], tick: u64)
        requires entries { All IsEntry entries.now }
        requires order { IsInOrder tick entries.now }
        requires some { 0 < tick }
        requires window { IsUsageWindow tick entries.now self.old }
        requires ticks { self.old.first.tick < self.old.end.tick }
        requires end { self.old.end.tick * tick < 2 ^ 63 }
        ensures window { IsUsageWindow tick entries.now self.new }
        ensures first { self.new.first.tick ≡ self.old.first.tick + 1 }
        ensures end { self.new.end.tick ≡ self.old.end.tick }
    {
        let first = self.first.tick;
        let leaving = self.first.advance(entries, tick);
        take_away(&mut self.usage, leaving, tick, first);
    }
}
