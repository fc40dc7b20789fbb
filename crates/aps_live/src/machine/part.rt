//! One partition of many, by its number.
ghost use Rattle.std.specs.Prelude.{◌≡◌};
ghost use Rattle.aps_model.specs.Budget.{part_at};

use aps_model::{PartFacts, PartitionId};

/// How a partition stands. One that doesn't exist has no budget and is shut.
pub fn part_at(parts: &[PartFacts], p: PartitionId) -> PartFacts
    ensures { result ≡ part_at parts.now p }
{
    match parts.get(p.index()) {
        Some(part) => *part,
        None => PartFacts {
            funded: false,
            standing: false,
            shut: true,
            used: 0,
            budget: 0,
        },
    }
}
