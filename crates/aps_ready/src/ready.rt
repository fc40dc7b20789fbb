//! The ready threads, and the greatest candidate among them.
ghost use Rattle.std.specs.Prelude.{◌≡◌, ◌≢◌, ◌<◌, ◌≤◌, All, List, length, slice_set, slice_index_or, replicate, IfOk, IfSome, Some, None};
ghost use Rattle.std.specs.Option.{option_map};
ghost use Rattle.aps_model.specs.Limits.{last_thread, most_partitions};
ghost use Rattle.aps_model.specs.Pick.{greatest, missing};
ghost use Rattle.aps_model.specs.declared.merit.Contender.{Contender};
ghost use Rattle.aps_model.specs.declared.merit.PartFacts.{PartFacts};
ghost use Rattle.aps_model.specs.declared.shape.Free.{Free};
ghost use Rattle.aps_ready.specs.Ahead.{IsAhead};
ghost use Rattle.aps_ready.specs.Gates.{AreGates};
ghost use Rattle.aps_ready.specs.Ready.{entrant_contender, members, entrant_seat, contenders_without, IsStampFree, with_facts};
ghost use Rattle.aps_ready.specs.Small.{IsSmall};
ghost use Rattle.aps_ready.specs.Group.{group_count};

use crate::ahead::{Ahead, ahead_at, highest};
use crate::entrant::{Entrant, entrant_of, seat_of};
use crate::gates::Gates;
use crate::lists::Lists;
use crate::look::{look, near};
use aps_model::limits::MOST_PARTITIONS;
use aps_model::{Contender, Facts, Free, NoMemory, PartFacts, PartitionId, ThreadId};
use std::alloc::Global;
use std::marker::Model;

/// What was drawn: the greatest candidate, which is out from then on, and the greatest of those that were left.
#[derive(Clone, Copy, PartialEq, Eq)]
pub struct Drawn {
    pub picked: Option<Contender>,
    pub left: Option<Contender>,
}

/// The ready threads, each with its inherited values and its stamp. Contracts see a row with a place for each thread: what
/// is known of it where it is in.
///
/// Threads of one partition, critical or not, are a group, and all of a group are candidates or none. For each priority each group
/// has a list of its threads in order of their stamps.
pub struct Ready {
    lists: Lists,
}

// Written out, so that it is proved here alone: a derived drop is proved again in each crate that lets a value go.
impl Drop for Ready {
    fn drop(self) {
        let Self { lists: _ } = self;
    }
}

impl Model for Ready {
    ghost use Rattle.std.specs.Prelude.{List, Option, map};
    ghost use Rattle.aps_model.specs.declared.merit.Contender.{Contender};
    ghost use Rattle.aps_ready.specs.Ready.{entrant_seat, HasThreads, IsQueued};

    ghost Value = { List (Option Contender) };

    ghost view = { λ r. map entrant_seat r.lists };

    ghost invariant = { λ r. IsQueued r.lists × HasThreads r.lists };
}

impl Ready {
    /// So many places, and nobody is in. All room is taken here: 16 bytes for each place, and 73,728 besides. Places behind
    /// that of the last thread number stay empty.
    pub fn new(alloc: Global, threads: u16) -> Result<Ready, NoMemory>
        ensures { IfOk result (λ ready. ready ≡ replicate threads None) }
    {
        let lists = Lists::new(alloc, threads as usize)?;
        Ok(Ready { lists })
    }

    /// What is known of a thread, if it is in.
    pub fn at(&self, x: ThreadId) -> Option<Contender>
        ensures known { result ≡ slice_index_or self.now x None }
        ensures thread { IfSome result (λ c. c.thread ≡ x) }
    {
        let index = x.index();
        if index < self.lists.len() {
            seat_of(&self.lists.at(index), x)
        } else {
            None
        }
    }

    /// Puts a thread in, with its inherited values and a stamp that no other has.
    pub fn put(&mut self, x: ThreadId, facts: Facts, stamp: u64)
        requires inside { x < length self.old }
        requires out { slice_index_or self.old x None ≡ None }
        requires stamp { All (IsStampFree stamp) self.old }
        ensures { self.new ≡ slice_set self.old x (Some (record { thread = x; facts = facts; stamp = stamp })) }
    {
        self.lists.enter(entrant_of(x, facts, stamp));
    }

    /// Takes a thread out.
    pub fn take(&mut self, x: ThreadId)
        requires inside { x < length self.old }
        requires present { slice_index_or self.old x None ≢ None }
        ensures { self.new ≡ slice_set self.old x None }
    {
        self.lists.leave(x.index());
    }

    /// Gives a thread that is in other values: the same as `take` and then `put` with the stamp that it has.
    pub fn change(&mut self, x: ThreadId, facts: Facts)
        requires inside { x < length self.old }
        requires present { slice_index_or self.old x None ≢ None }
        ensures { self.new ≡ slice_set self.old x (option_map (with_facts facts) (slice_index_or self.old x None)) }
    {
        let stamp = self.lists.at(x.index()).stamp;
        self.take(x);
        self.put(x, facts, stamp);
    }
}

impl Ready {
    /// The greatest candidate, none exactly where there is none. Used times are at most 100,000,000,000,000 ns and budgets
    /// at most 1,000 parts, so that no product overflows. It looks at the groups at the highest priority first, and makes the
    /// gates of all partitions only where the best of these isn't a candidate of class 1.
    pub fn best(&self, parts: &[PartFacts], free: Free) -> Option<ThreadId>
        requires { All IsSmall parts.now }
        ensures greatest { result ≡ option_map (λ c. c.thread) (greatest free parts.now (members self.now)) }
        ensures inside { IfSome result (λ x. x < length self.now) }
        ensures present { IfSome result (λ x. slice_index_or self.now x None ≢ None) }
    {
        let near = self.nearest(parts);
        if near.group < 64 {
            Some(ThreadId::at(near.thread as usize))
        } else {
            self.best_by(Gates::of(parts), parts, free)
        }
    }

    /// The greatest candidate, as `best`, where the gates of the partitions are kept. It compares the first of those
    /// groups alone that can have it: of class 1 those at the highest priority, and else the same of class 0.
    pub fn best_by(&self, gates: Gates, parts: &[PartFacts], free: Free) -> Option<ThreadId>
        requires gates { AreGates parts.now gates }
        requires small { All IsSmall parts.now }
        ensures greatest { result ≡ option_map (λ c. c.thread) (greatest free parts.now (members self.now)) }
        ensures inside { IfSome result (λ x. x < length self.now) }
        ensures present { IfSome result (λ x. slice_index_or self.now x None ≢ None) }
    {
        let best = self.greatest(gates, parts, free);
        if best.group < 64 {
            Some(ThreadId::at(best.thread as usize))
        } else {
            None
        }
    }

    /// The greatest candidate with what is known of it, as `best_by`.
    pub fn greatest_by(&self, gates: Gates, parts: &[PartFacts], free: Free) -> Option<Contender>
        requires gates { AreGates parts.now gates }
        requires small { All IsSmall parts.now }
        ensures { result ≡ greatest free parts.now (members self.now) }
    {
        let best = self.greatest(gates, parts, free);
        known(&best)
    }

    /// What the greatest candidate is ahead by; none exactly where there is none. It looks at levels alone, and at no
    /// partition: who is below the greatest candidate is known by these.
    #[inline(always)]
    pub fn ahead_by(&self, gates: Gates) -> Option<Ahead>
        ensures { (parts : List PartFacts) (free : Free) → AreGates parts gates
            → IsAhead free parts (greatest free parts (members self.now)) result }
    {
        let first = highest(&self.lists, gates.first);
        if first < 256 {
            return Some(ahead_at(1, first));
        }
        let second = highest(&self.lists, gates.second);
        if second < 256 {
            Some(ahead_at(0, second))
        } else {
            None
        }
    }

    /// Takes the greatest candidate out, if there is one, and tells what is known of it. The gates of the partitions are kept, as
    /// for `best_by`.
    pub fn take_greatest(
        &mut self,
        gates: Gates,
        parts: &[PartFacts],
        free: Free,
    ) -> Option<Contender>
        requires gates { AreGates parts.now gates }
        requires small { All IsSmall parts.now }
        ensures picked { result ≡ greatest free parts.now (members self.old) }
        ensures out { self.new ≡ contenders_without result self.old }
    {
        let best = self.greatest(gates, parts, free);
        if best.group < 64 {
            self.pop(&best)
        } else {
            None
        }
    }

    /// Takes the greatest candidate out, if there is one, and tells it, and the greatest of those that are left. The gates of
    /// the partitions are kept, as for `best_by`.
    pub fn draw(&mut self, gates: Gates, parts: &[PartFacts], free: Free) -> Drawn
        requires gates { AreGates parts.now gates }
        requires small { All IsSmall parts.now }
        ensures picked { result.picked ≡ greatest free parts.now (members self.old) }
        ensures out { self.new ≡ contenders_without result.picked self.old }
        ensures left { result.left ≡ greatest free parts.now (members self.new) }
    {
        let picked = self.take_greatest(gates, parts, free);
        let left = self.greatest_by(gates, parts, free);
        Drawn { picked, left }
    }

    /// Takes somebody out, and tells what is known of it.
    fn pop(&mut self, one: &Entrant) -> Option<Contender>
        requires group { one.now.group < group_count }
        requires thread { one.now.thread ≤ last_thread }
        requires inside { one.now.thread < length self.old }
        requires present { slice_index_or self.old one.now.thread None ≢ None }
        ensures picked { result ≡ Some (entrant_contender one.now) }
        ensures out { self.new ≡ slice_set self.old one.now.thread None }
    {
        let x = ThreadId::at(one.thread as usize);
        self.take(x);
        seat_of(one, x)
    }

    /// The greatest candidate, as it is kept; nobody where there is none.
    #[inline(always)]
    fn greatest(&self, gates: Gates, parts: &[PartFacts], free: Free) -> Entrant
        requires gates { AreGates parts.now gates }
        requires small { All IsSmall parts.now }
        ensures greatest { entrant_seat result ≡ greatest free parts.now (members self.now) }
        ensures thread { result.group < group_count → result.thread ≤ last_thread }
        ensures inside { result.group < group_count → result.thread < length self.now }
        ensures present { result.group < group_count → slice_index_or self.now result.thread None ≢ None }
    {
        look(&self.lists, gates, parts, free)
    }

    /// The greatest candidate, where the best of those at the highest priority of all is a candidate of class 1; else nobody.
    #[inline(always)]
    fn nearest(&self, parts: &[PartFacts]) -> Entrant
        requires small { All IsSmall parts.now }
        ensures greatest { (free : Free) → result.group < group_count → entrant_seat result ≡ greatest free parts.now (members self.now) }
        ensures thread { result.group < group_count → result.thread ≤ last_thread }
        ensures inside { result.group < group_count → result.thread < length self.now }
        ensures present { result.group < group_count → slice_index_or self.now result.thread None ≢ None }
    {
        near(&self.lists, parts)
    }

    /// The lowest partition with a budget above 0 that has no candidate; none exactly where each of these has one.
    pub fn missing(&self, parts: &[PartFacts]) -> Option<PartitionId>
        requires { length parts.now ≤ most_partitions }
        ensures { result ≡ missing parts.now (members self.now) }
    {
        self.missing_by(Gates::of(parts))
    }

    /// The lowest partition with a budget and no candidate, as `missing`, by kept gates. It looks at no thread and at no
    /// partition.
    pub fn missing_by(&self, gates: Gates) -> Option<PartitionId>
        ensures { (parts : List PartFacts) → AreGates parts gates → length parts ≤ most_partitions
            → result ≡ missing parts (members self.now) }
    {
        let groups = gates.first.join(gates.second).meet(self.lists.occupied());
        let starved = gates.budgeted.minus(groups.join(groups.upper_half()));
        match starved.least() {
            Some(p) if p < MOST_PARTITIONS => Some(PartitionId::at(p)),
            _ => None,
        }
    }
}

/// What is known of the thread that an entrant stands for, if it is anybody.
fn known(e: &Entrant) -> Option<Contender>
    requires { e.now.group < group_count → e.now.thread ≤ last_thread }
    ensures { result ≡ entrant_seat e.now }
{
    if e.group < 64 {
        seat_of(e, ThreadId::at(e.thread as usize))
    } else {
        None
    }
}
