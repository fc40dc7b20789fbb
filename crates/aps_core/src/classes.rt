//! Which threads are of class 1, kept beside the gates: these tell who of the ready threads are candidates, and how high a
//! processor stands goes by the class of the thread that it runs.
ghost use Rattle.std.specs.Prelude.{◌≡◌, ◌<◌, ◌%◌, ◌++◌, [], ◌∷◌, List, length, nat_lt, slice_set};
ghost use Rattle.aps_model.specs.Budget.{part_at};
ghost use Rattle.aps_model.specs.declared.merit.PartFacts.{PartFacts as PartFactsOf};
ghost use Rattle.aps_model.specs.Limits.{last_partition, most_partitions};
ghost use Rattle.aps_ready.specs.Gates.{is_first};
ghost use Rattle.aps_core.specs.Classes.{AreClasses};
ghost use Rattle.aps_ready.specs.Group.{group_count};

use aps_levels::Bits64;
use aps_model::limits::MOST_PARTITIONS;
use aps_model::{PartFacts, PartitionId};

/// The groups of threads that are of class 1. A group is a partition's number, or 32 more for its critical threads.
#[derive(Clone, Copy, PartialEq, Eq)]
pub struct Classes {
    pub first: Bits64,
}

impl Classes {
    /// Those of no partitions.
    pub fn none() -> Classes
        ensures { AreClasses [] result }
    {
        Classes {
            first: Bits64::none(),
        }
    }

    /// The classes after one partition changed, or after one more came, whose number is the next.
    #[inline(always)]
    pub fn set(&mut self, p: PartitionId, part: &PartFacts)
        ensures changed { (parts : List PartFactsOf)
            → AreClasses parts self.old
            → p < length parts
            → AreClasses (slice_set parts p part.now) self.new }
        ensures added { (parts : List PartFactsOf)
            → AreClasses parts self.old
            → length parts ≡ p
            → AreClasses (parts ++ part.now ∷ []) self.new }
    {
        let place = p.index();
        let plain = self.first.put(place, is_first(part, false));
        self.first = plain.put(place + MOST_PARTITIONS, is_first(part, true));
    }

    /// Whether the threads of this partition, critical or not, are of class 1.
    #[inline(always)]
    pub fn is_first(self, p: PartitionId, critical: bool) -> bool
        ensures { (parts : List PartFactsOf) → AreClasses parts self → result ≡ is_first (part_at parts p) critical }
    {
        self.first.has(group_of(p, critical))
    }
}

/// The group of a thread of this partition, critical or not.
#[inline(always)]
pub fn group_of(p: PartitionId, critical: bool) -> usize
    ensures below { result < group_count }
    ensures partition { result % most_partitions ≡ p }
    ensures critical { nat_lt last_partition result ≡ critical }
{
    let place = p.index();
    if critical {
        place + MOST_PARTITIONS
    } else {
        place
    }
}

/// Whether the critical, or the other, threads of the partition are of class 1.
#[inline(always)]
fn is_first(part: &PartFacts, critical: bool) -> bool
    ensures { result ≡ is_first part.now critical }
{
    part.funded | (critical & part.standing)
}
