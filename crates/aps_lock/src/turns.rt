//! Who steps next, and who soon.
ghost use Rattle.std.specs.Prelude.{◌≡◌, ◌+◌, ◌≤◌};

use crate::cpu_set::CpuSet;
use aps_core::Core;
use aps_model::{CpuId, Nanos, Order};

/// Who steps next, and who soon.
#[derive(Clone, Copy, PartialEq, Eq)]
pub(crate) struct Turns {
    /// The processors that have the turn.
    pub(crate) next: CpuSet,
    /// The lowest of them, and those that are due soonest after it. Their drivers are to be awake.
    pub(crate) soon: CpuSet,
}

impl Turns {
    /// Both sets in one word, so that a look reads both.
    pub(crate) fn bits(self) -> u64 {
        self.next.bits() | self.soon.bits() << 16
    }

    /// The turns of such a word.
    pub(crate) fn of_bits(bits: u64) -> Turns {
        Turns {
            next: CpuSet::of_bits(bits & 0xffff),
            soon: CpuSet::of_bits(bits >> 16),
        }
    }

    /// The turns after what the core has done. The order fixes who has the next one: the lowest of those that are due
    /// least, or all of these. Soon so many come, or all where there are no more. Where the run has ended it is
    /// everybody's turn, so that each driver learns of it.
    pub(crate) fn after(core: &Core, most_soon: u64) -> Turns {
        if core.ended().is_some() {
            return Turns {
                next: CpuSet::all(),
                soon: CpuSet::all(),
            };
        }
        let first = due_first(core, CpuSet::none());
        let next = match core.order() {
            Order::Fixed => first.lowest(),
            Order::Free => first,
        };
        let last = last_cpu(core);
        let soon = if (last.index() as u64) < most_soon {
            CpuSet::up_to(last)
        } else {
            soonest(core, first, most_soon)
        };
        Turns { next, soon }
    }
}

/// So many of the processors that are due soonest, of which these are due first.
fn soonest(core: &Core, first: CpuSet, count: u64) -> CpuSet {
    let mut soon = CpuSet::none();
    let mut ties = first;
    for _ in 0..count {
        if ties.is_empty() {
            ties = due_first(core, soon);
        }
        let cpu = ties.lowest();
        soon = soon.with(cpu);
        ties = ties.without(cpu);
    }
    soon
}

/// The processors that are due first, these left out.
fn due_first(core: &Core, but: CpuSet) -> CpuSet {
    let mut least = Nanos::MAX;
    let mut first = CpuSet::none();
    for c in 0..=last_cpu(core).index() {
        let cpu = CpuId::at(c);
        let due = core.due(cpu);
        if due <= least && !but.has(cpu) {
            let mine = CpuSet::of(cpu);
            first = if due < least { mine } else { first.with(mine) };
            least = due;
        }
    }
    first
}

/// The last of the core's processors, of which there are 1 to 16.
pub(crate) fn last_cpu(core: &Core) -> CpuId
    ensures last { result + 1 ≡ core.now.setup.scenario.shape.cpus }
    ensures few { result ≤ 15 }
{
    CpuId::at(usize::from(core.history().scenario().shape().cpus) - 1)
}
