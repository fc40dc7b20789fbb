//! The threads that are in, in lists: one for each level and group, in order of their stamps.
ghost use Rattle.std.specs.Prelude.{◌≡◌, ◌≢◌, ℕ, ◌<◌, ◌≤◌, length, replicate, slice_set, nat_lt, IfOk, IfSome, IfNone, true, false};
ghost use Rattle.aps_levels.specs.Bits.{set_has};
ghost use Rattle.aps_ready.specs.Entrant.{entrant_at, vacant};
ghost use Rattle.aps_ready.specs.Firsts.{firsts_of, level_of, AreAt, AreEmpty, AreLeast};
ghost use Rattle.aps_ready.specs.Leaders.{IsEarliest};
ghost use Rattle.aps_ready.specs.Lists.{head_of, link, list_of, AreRings, IsNode, IsPlace};
ghost use Rattle.aps_model.specs.Limits.{greatest_priority, last_thread};
ghost use Rattle.aps_levels.specs.Levels.{level_count};
ghost use Rattle.aps_ready.specs.Group.{group_count};

use crate::entrant::{Entrant, vacant};
use crate::ring::{HEADS, NODES, head_of, link, place_for, unlink};
use crate::table::{Found, Table};
use aps_levels::Bits64;
use aps_model::NoMemory;
use std::alloc::Global;
use std::marker::Model;

/// Who is in, by thread, and for each level and group a list of its threads in order of their stamps. A thread with the greatest
/// or the smallest stamp of its list is put in in a few steps, and any is taken out so, however many are in; one with a stamp in
/// between passes those with greater ones. Contracts see who is in at each place.
///
/// A list is a ring of nodes: its head, and its threads. A thread's node has the thread's number.
#[derive(Drop)]
pub struct Lists {
    row: Vec<Entrant>,
    /// the node behind each node
    after: Vec<u16>,
    /// the node before each node
    before: Vec<u16>,
    /// the lists that aren't empty
    table: Table,
}

impl Model for Lists {
    ghost use Rattle.std.specs.Prelude.{List};
    ghost use Rattle.aps_ready.specs.Lists.{AreLists};
    ghost use Rattle.aps_ready.specs.declared.entrant.Entrant.{Entrant};

    ghost Value = { List Entrant };

    ghost view = { λ s. s.row.items };

    ghost invariant = { λ s. AreLists s.row.items s.after.items s.before.items s.table };
}

impl Lists {
    /// Nobody is in.
    pub fn new(alloc: Global, threads: usize) -> Result<Lists, NoMemory>
        ensures { IfOk result (λ lists. lists ≡ replicate threads vacant) }
    {
        let row = vec![in alloc; vacant(); threads]?;
        let mut after = Vec::with_capacity(alloc, NODES)?;
        'forth: for node in 0..NODES {
            after.push(node as u16)?;
        }
        let mut before = Vec::with_capacity(alloc, NODES)?;
        'back: for node in 0..NODES {
            before.push(node as u16)?;
        }
        let table = Table::new(alloc)?;
        Ok(Lists {
            row,
            after,
            before,
            table,
        })
    }

    /// How many places there are.
    #[inline(always)]
    pub fn len(&self) -> usize
        ensures { result ≡ length self.now }
    {
        self.row.len()
    }

    /// Who is in at a place.
    #[inline(always)]
    pub fn at(&self, x: usize) -> Entrant
        requires { x < length self.now }
        ensures { result ≡ entrant_at self.now x }
    {
        self.row[x]
    }

    /// Somebody who isn't in comes to its place, with a stamp that no other has.
    #[inline(always)]
    pub fn enter(&mut self, one: Entrant)
        requires group { one.group < group_count }
        requires level { one.level ≤ greatest_priority }
        requires inside { one.thread < length self.old }
        requires few { one.thread ≤ last_thread }
        requires out { group_count ≤ (entrant_at self.old one.thread).group }
        requires stamp { (x : ℕ) → (entrant_at self.old x).group < group_count → (entrant_at self.old x).stamp ≢ one.stamp }
        ensures { self.new ≡ slice_set self.old one.thread one }
    {
        let level = one.level as usize;
        let group = one.group as usize;
        let x = one.thread as usize;
        let head = head_of(level, group);
        let place = place_for(&self.row, &self.after, &self.before, head, one.stamp);
        link(&mut self.after, &mut self.before, place, x);
        self.table.enter(level, group);
        self.row[x] = one;
    }

    /// Whoever is at a place goes.
    #[inline(always)]
    pub fn leave(&mut self, x: usize)
        requires inside { x < length self.old }
        requires there { (entrant_at self.old x).group < group_count }
        ensures { self.new ≡ slice_set self.old x vacant }
    {
        let one = self.row[x];
        let level = one.level as usize;
        let group = one.group as usize;
        unlink(&mut self.after, &mut self.before, x);
        self.row[x] = vacant();
        let head = head_of(level, group);
        if self.after[head] as usize != head {
            return;
        }
        self.table.leave(level, group);
    }

    /// The groups that aren't empty.
    #[inline(always)]
    pub fn occupied(&self) -> Bits64
        ensures { (g : ℕ) → g < group_count → set_has result g ≡ nat_lt (level_of (firsts_of self.now) g) level_count }
    {
        self.table.occupied()
    }

    /// The first of a group, whose least level this is.
    #[inline(always)]
    pub fn first(&self, level: usize, group: usize) -> Entrant
        requires group { group < group_count }
        requires below { level < level_count }
        requires level { level_of (firsts_of self.now) group ≡ level }
        ensures { result ≡ entrant_at (firsts_of self.now) group }
    {
        let node = self.after[head_of(level, group)] as usize;
        self.row[node]
    }

    /// Of the groups of a set those at the least level of any of them; none exactly where all of them are empty.
    #[inline(always)]
    pub fn least(&self, set: Bits64) -> Option<Found>
        ensures some { IfSome result (λ found. AreLeast (firsts_of self.now) (set_has set) (set_has found.groups)) }
        ensures at { IfSome result (λ found. AreAt (firsts_of self.now) (set_has found.groups) found.level) }
        ensures none { IfNone result (AreEmpty (firsts_of self.now) set) }
    {
        self.table.least(set)
    }

    /// The first with the smallest stamp, of those of groups whose least level this is; nobody where there is no group.
    #[inline(always)]
    pub fn earliest(&self, level: usize, set: Bits64) -> Entrant
        requires { AreAt (firsts_of self.now) (set_has set) level }
        ensures some { (g : ℕ) → g < group_count → set_has set g ≡ true → IsEarliest (firsts_of self.now) (set_has set) result }
        ensures none { ((g : ℕ) → set_has set g ≡ false) → result ≡ vacant }
    {
        let Some(start) = set.least() else {
            return vacant();
        };
        let mut best = self.first(level, start);
        let mut left = set.without_least();
        'groups: while let Some(group) = left.least() {
            let other = self.first(level, group);
            if other.stamp < best.stamp {
                best = other;
            }
            left = left.without_least();
        }
        best
    }
}
