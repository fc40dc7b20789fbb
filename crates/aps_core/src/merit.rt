//! Candidates and critical picks, by how the partitions stand.
ghost use Rattle.std.specs.Prelude.{◌≡◌, All};
ghost use Rattle.aps_model.specs.Budget.{part_at};
ghost use Rattle.aps_model.specs.Merit.{is_candidate, is_critical_pick};
ghost use Rattle.aps_core.specs.Small.{IsSmall};

use aps_merit::{is_candidate, is_critical_pick};
use aps_model::{Contender, PartFacts, PartitionId};

/// How a partition stands.
pub fn part_at(parts: &[PartFacts], p: PartitionId) -> PartFacts
    ensures same { result ≡ part_at parts.now p }
    ensures small { All IsSmall parts.now → IsSmall result }
{
    match parts.get(p.index()) {
        Some(part) => *part,
        None => PartFacts {
            funded: false,
            standing: false,
            shut: true,
            used: 0,
            budget: 0,
        },
    }
}

/// Whether a ready thread is a candidate.
pub fn is_candidate_among(parts: &[PartFacts], c: &Contender) -> bool
    ensures { result ≡ is_candidate c.now.facts (part_at parts.now c.now.facts.partition) }
{
    let facts = c.facts;
    is_candidate(facts, &part_at(parts, facts.partition))
}

/// Whether the pick of a ready thread is critical.
pub fn is_critical_among(parts: &[PartFacts], c: &Contender) -> bool
    ensures { result ≡ is_critical_pick c.now.facts (part_at parts.now c.now.facts.partition) }
{
    let facts = c.facts;
    is_critical_pick(facts, &part_at(parts, facts.partition))
}
