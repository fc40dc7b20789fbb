//! What the machine is asked: how partitions stand, and which of them have a candidate.
ghost use Rattle.std.specs.Prelude.{◌≡◌, ℕ, ◌<◌, ◌≤◌, length, slice_index_or, IfOk, IfSome, IfNone, IsTrue, false, nat_eq, ◌&&◌, ◌||◌};
ghost use Rattle.aps_model.specs.Limits.{most_partitions};
ghost use Rattle.aps_model.specs.Pick.{contender_of, contenders, is_ready};
ghost use Rattle.aps_model.specs.SchedulerState.{thread_at};
ghost use Rattle.aps_core.specs.Counts.{parts_in};
ghost use Rattle.aps_core.specs.Scan.{has_candidate};
ghost use Rattle.aps_core.specs.Standing.{DoOthersStand};

use super::Machine;
use crate::standing::Standing;
use crate::{merit, usage};
use aps_model::{Contender, NoMemory, PartFacts, PartitionId, State, ThreadId};
use aps_window::Window;
use std::alloc::Global;

impl Machine {
    /// Each partition by its row and what the window has of it.
    pub fn stand(&self, window: &Window, parts: &mut [PartFacts])
        requires one_each { length parts.old ≡ length self.now.rows }
        ensures same { parts.new ≡ parts_in self.now.shape self.now.rows window.now }
        ensures few { length self.now.rows ≤ most_partitions }
    {
        usage::fill_parts(&self.shape, self.tree.rows(), window, parts);
    }

    /// How the partitions stand at the start, for which memory is taken.
    pub fn start_standing(&self, alloc: Global, window: &Window) -> Result<Standing, NoMemory>
        ensures { IfOk result (λ standing. standing ≡ parts_in self.now.shape self.now.rows window.now) }
    {
        let mut standing = Standing::new(alloc)?;
        self.stand_by(window, &mut standing, true, &None);
        Ok(standing)
    }

    /// The partitions stand by their rows and what the window has of them: all of them anew, or the one that was billed
    /// where no other can stand otherwise than before.
    #[inline(always)]
    pub fn stand_by(
        &self,
        window: &Window,
        standing: &mut Standing,
        is_any: bool,
        billed: &Option<PartitionId>,
    )
        requires { is_any ≡ false → DoOthersStand billed.now self.now.shape self.now.rows window.now standing.old }
        ensures same { standing.new ≡ parts_in self.now.shape self.now.rows window.now }
        ensures few { length self.now.rows ≤ most_partitions }
    {
        let rows = self.tree.rows();
        if is_any {
            standing.fill(&self.shape, rows, window);
        } else if let Some(p) = billed {
            standing.fill_one(&self.shape, rows, window, *p);
        }
    }

    /// Which partitions have a candidate among the threads that are ready, where they stand so.
    pub fn candidates(&self, parts: &[PartFacts]) -> [bool; 32]
        ensures { (p : ℕ) → p < most_partitions → slice_index_or result p false ≡ has_candidate parts.now p (contenders self.now) }
    {
        let mut found = [false; 32];
        for x in 0..self.count() {
            if let Some(c) = self.contender_at(ThreadId::at(x)) {
                let is_candidate = merit::is_candidate_among(parts, &c);
                mark(&mut found, c.facts.partition, is_candidate);
            }
        }
        found
    }

    /// The thread as a contender, if it is ready.
    fn contender_at(&self, x: ThreadId) -> Option<Contender>
        ensures ready { IfSome result (λ c. (c ≡ contender_of self.now x) × IsTrue (is_ready (thread_at self.now x).state)) }
        ensures other { IfNone result (is_ready (thread_at self.now x).state ≡ false) }
    {
        let task = self.task(x);
        match task.state {
            State::Ready => Some(Contender {
                thread: x,
                facts: self.facts_of(x),
                stamp: task.stamp,
            }),
            _ => None,
        }
    }
}

/// The partition is marked, if this holds. Each other mark stays.
fn mark(found: &mut [bool; 32], p: PartitionId, holds: bool)
    ensures { (k : ℕ) → k < most_partitions
        → slice_index_or found.new k false ≡ (slice_index_or found.old k false || (holds && nat_eq p k)) }
{
    if holds {
        found[p.index()] = true;
    }
}
