//! Which groups of ready threads are candidates, in which class, and which partitions have a budget.
ghost use Rattle.std.specs.Prelude.{◌≡◌, ◌≢◌, ℕ, ◌<◌, List, [], ◌∷◌, ◌++◌, length, slice_set, nat_eq, if◌then◌else◌};
ghost use Rattle.aps_model.specs.Limits.{most_partitions};
ghost use Rattle.aps_model.specs.declared.merit.PartFacts.{PartFacts};
ghost use Rattle.aps_ready.specs.Gates.{is_first, is_open_first, is_open_second, open_first, AreGates, AreGatesOf};
ghost use Rattle.aps_ready.specs.Group.{group_count};

use crate::parts::part_at;
use aps_levels::Bits64;
use aps_model::limits::MOST_PARTITIONS;
use aps_model::{PartFacts, PartitionId};

/// How the partitions stand at a pick, as sets: the groups of class 1 whose ready threads are candidates, the same of
/// class 0, and the partitions with a budget above 0. A group is a partition's number, or 32 more for its critical
/// threads. Keep one beside the partitions and set what changes, so that no look at the ready threads goes through all of
/// them.
#[derive(Clone, Copy, PartialEq, Eq)]
pub struct Gates {
    pub(crate) first: Bits64,
    pub(crate) second: Bits64,
    pub(crate) budgeted: Bits64,
}

impl Gates {
    /// The gates of no partitions.
    pub fn none() -> Gates
        ensures { AreGates [] result }
    {
        Gates {
            first: Bits64::none(),
            second: Bits64::none(),
            budgeted: Bits64::none(),
        }
    }

    /// The gates of these partitions, each by its number. No thread is of one from number 32 on, so these don't count.
    #[inline(never)]
    pub fn of(parts: &[PartFacts]) -> Gates
        ensures { AreGates parts.now result }
    {
        let mut gates = Gates::none();
        for p in 0..MOST_PARTITIONS {
            gates.put(p, &part_at(parts, p));
        }
        gates
    }

    /// The gates after one partition changed, or after one more came, whose number is the next.
    #[inline(always)]
    pub fn set(&mut self, p: PartitionId, part: &PartFacts)
        ensures changed { (parts : List PartFacts)
            → AreGates parts self.old
            → p < length parts
            → AreGates (slice_set parts p part.now) self.new }
        ensures added { (parts : List PartFacts) → AreGates parts self.old → length parts ≡ p → AreGates (parts ++ part.now ∷ []) self.new }
    {
        self.put(p.index(), part);
    }

    /// The partition with this number stands so, and each other as before.
    #[inline(always)]
    fn put(&mut self, p: usize, part: &PartFacts)
        requires { p < most_partitions }
        ensures { (stands : ℕ → PartFacts) → AreGatesOf stands self.old
            → AreGatesOf (λ q. if nat_eq q p then part.now else stands q) self.new }
    {
        let marked = p + MOST_PARTITIONS;
        self.first = self
            .first
            .put(p, is_open_first(part, false))
            .put(marked, is_open_first(part, true));
        self.second = self
            .second
            .put(p, is_open_second(part, false))
            .put(marked, is_open_second(part, true));
        self.budgeted = self.budgeted.put(p, part.budget > 0);
    }
}

/// Whether the critical, or the other, threads of the partition are of class 1.
#[inline(always)]
fn is_first(part: &PartFacts, critical: bool) -> bool
    ensures { result ≡ is_first part.now critical }
{
    part.funded | (critical & part.standing)
}

/// Whether the threads of a group are candidates of class 1.
#[inline(always)]
pub(crate) fn is_in_first(parts: &[PartFacts], group: usize) -> bool
    requires { group < group_count }
    ensures { result ≡ open_first parts.now group }
{
    match parts.get(group % MOST_PARTITIONS) {
        Some(part) => is_open_first(part, 31 < group),
        None => false,
    }
}

/// Whether they are candidates of class 1.
#[inline(always)]
fn is_open_first(part: &PartFacts, critical: bool) -> bool
    ensures { result ≡ is_open_first part.now critical }
{
    is_first(part, critical) & !(part.shut & part.funded)
}

/// Whether they are candidates of class 0.
#[inline(always)]
fn is_open_second(part: &PartFacts, critical: bool) -> bool
    ensures { result ≡ is_open_second part.now critical }
{
    !is_first(part, critical) & !part.shut
}
