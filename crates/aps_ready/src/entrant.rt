//! Who is in, as it is kept.
ghost use Rattle.std.specs.Prelude.{◌≡◌, ◌<◌, ◌≤◌};
ghost use Rattle.aps_model.specs.Limits.{greatest_priority, last_partition, last_thread};
ghost use Rattle.aps_model.specs.declared.state.Facts.{Facts};
ghost use Rattle.aps_ready.specs.Entrant.{vacant, entrant_of};
ghost use Rattle.aps_ready.specs.Ready.{entrant_seat};
ghost use Rattle.aps_ready.specs.Group.{group_count};

use aps_model::{Contender, Facts, PartitionId, ThreadId};

/// Who is in: a thread, its group, its level (the lower goes first), and its stamp, which decides between equal
/// levels. It is sixteen bytes of plain numbers without a gap, so that one is copied and compared in a few instructions.
#[derive(Clone, Copy, PartialEq, Eq)]
pub struct Entrant {
    /// 255 less the priority, 256 where nobody is
    pub level: u16,
    /// the partition, and 32 more where the thread is critical; 64 where nobody is
    pub group: u16,
    pub thread: u32,
    pub stamp: u64,
}

/// Nobody: at a level above all others, and of no group.
#[inline(always)]
pub fn vacant() -> Entrant
    ensures { result ≡ vacant }
{
    Entrant {
        level: 256,
        group: 64,
        thread: 0,
        stamp: 0,
    }
}

/// A thread with these values, as it is kept.
#[inline(always)]
pub fn entrant_of(x: ThreadId, facts: Facts, stamp: u64) -> Entrant
    ensures same { result ≡ entrant_of x facts stamp }
    ensures thread { x ≤ last_thread }
    ensures partition { facts.partition ≤ last_partition }
    ensures priority { facts.priority ≤ greatest_priority }
{
    let partition = facts.partition.index() as u16;
    Entrant {
        level: 255 - u16::from(facts.priority),
        group: if facts.critical {
            partition + 32
        } else {
            partition
        },
        thread: x.index() as u32,
        stamp,
    }
}

/// What is known of thread `x`, which is in so, or not at all.
#[inline(always)]
pub fn seat_of(e: &Entrant, x: ThreadId) -> Option<Contender>
    requires { e.now.group < group_count → e.now.thread ≡ x }
    ensures { result ≡ entrant_seat e.now }
{
    if e.group < 64 {
        let partition = PartitionId::at((e.group % 32) as usize);
        let facts = Facts {
            partition,
            priority: 255u16.saturating_sub(e.level) as u8,
            critical: 31 < e.group,
        };
        Some(Contender {
            thread: x,
            facts,
            stamp: e.stamp,
        })
    } else {
        None
    }
}
