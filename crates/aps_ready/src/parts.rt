//! How a partition stands.
ghost use Rattle.std.specs.Prelude.{◌≡◌, ◌<◌, length, All};
ghost use Rattle.aps_model.specs.Budget.{part_at};
ghost use Rattle.aps_ready.specs.Small.{IsSmall};

use aps_model::PartFacts;

/// How a partition stands. One that doesn't exist has no budget and is shut.
#[inline(always)]
pub fn part_at(parts: &[PartFacts], p: usize) -> PartFacts
    ensures same { result ≡ part_at parts.now p }
    ensures small { All IsSmall parts.now → IsSmall result }
{
    match parts.get(p) {
        Some(part) => *part,
        None => PartFacts {
            funded: false,
            standing: false,
            shut: true,
            used: 0,
            budget: 0,
        },
    }
}

/// How a partition that exists stands.
#[inline(always)]
pub fn part_of(parts: &[PartFacts], p: usize) -> PartFacts
    requires { p < length parts.now }
    ensures same { result ≡ part_at parts.now p }
    ensures small { All IsSmall parts.now → IsSmall result }
{
    parts[p]
}
