//! The look at the firsts of the groups: who of them is the greatest candidate.
ghost use Rattle.std.specs.Prelude.{◌≡◌, ℕ, ◌<◌, ◌%◌, true, false, length, IfSome, All};
ghost use Rattle.aps_model.specs.declared.shape.Free.{Free};
ghost use Rattle.aps_model.specs.Limits.{most_partitions};
ghost use Rattle.aps_levels.specs.Bits.{set_has};
ghost use Rattle.aps_levels.specs.Levels.{level_count};
ghost use Rattle.aps_ready.specs.Best.{IsBest};
ghost use Rattle.aps_ready.specs.Firsts.{firsts_of, level_of, AreAt, IsOnly};
ghost use Rattle.aps_ready.specs.Gates.{open_first, AreGates};
ghost use Rattle.aps_ready.specs.Likely.{AreLikelySecond};
ghost use Rattle.aps_ready.specs.Ready.{IsQueued};
ghost use Rattle.aps_ready.specs.Small.{IsSmall};
ghost use Rattle.aps_ready.specs.Winner.{IsWinner};
ghost use Rattle.aps_ready.specs.Group.{group_count};

use crate::entrant::{Entrant, vacant};
use crate::gates::{Gates, is_in_first};
use crate::leaders::{least_used, partitions_of};
use crate::lists::Lists;
use aps_levels::Bits64;
use aps_model::{Free, PartFacts};

/// The greatest candidate; nobody where nobody is a candidate.
pub fn look(lists: &Lists, gates: Gates, parts: &[PartFacts], free: Free) -> Entrant
    requires gates { AreGates parts.now gates }
    requires small { All IsSmall parts.now }
    requires queued { IsQueued lists.now }
    ensures { IsWinner free parts.now lists.now result }
{
    match lists.least(gates.first) {
        Some(found) => best_at_level(lists, parts, found.level, found.groups),
        None => highest_leader(lists, parts, likely_second(lists, gates.second, free)),
    }
}

/// The greatest candidate, where the best of those at the highest priority that anybody has is a candidate of class 1; else nobody.
/// It tests the partition of that one alone.
pub fn near(lists: &Lists, parts: &[PartFacts]) -> Entrant
    requires small { All IsSmall parts.now }
    requires queued { IsQueued lists.now }
    ensures { (free : Free) → result.group < group_count → IsWinner free parts.now lists.now result }
{
    let Some(found) = lists.least(lists.occupied()) else {
        return vacant();
    };
    if are_known(parts, found.groups) {
        of_first(
            parts,
            best_at_level(lists, parts, found.level, found.groups),
        )
    } else {
        vacant()
    }
}

/// Whether the partitions of these groups exist.
#[inline(always)]
fn are_known(parts: &[PartFacts], groups: Bits64) -> bool
    ensures { result ≡ true → (g : ℕ) → g < group_count → set_has groups g ≡ true → g % most_partitions < length parts.now }
{
    let all = partitions_of(groups);
    all.minus(all.below(parts.len())).is_empty()
}

/// The same, where it is a candidate of class 1; else nobody.
#[inline(always)]
fn of_first(parts: &[PartFacts], one: Entrant) -> Entrant
    ensures same { result.group < group_count → result ≡ one }
    ensures first { result.group < group_count → open_first parts.now result.group ≡ true }
{
    if one.group < 64 && is_in_first(parts, one.group as usize) {
        one
    } else {
        vacant()
    }
}

/// The groups that can have the greatest candidate, where no group of class 1 has one.
#[inline(always)]
fn likely_second(lists: &Lists, second: Bits64, free: Free) -> Bits64
    ensures { AreLikelySecond free (firsts_of lists.now) second result }
{
    match free {
        Free::Ratio => second.meet(lists.occupied()),
        Free::Priority => match lists.least(second) {
            Some(found) => found.groups,
            None => Bits64::none(),
        },
    }
}

/// The one that is ahead of the others, of the firsts of groups that are at one level.
#[inline(always)]
fn best_at_level(lists: &Lists, parts: &[PartFacts], level: usize, groups: Bits64) -> Entrant
    requires small { All IsSmall parts.now }
    requires queued { IsQueued lists.now }
    requires level { AreAt (firsts_of lists.now) (set_has groups) level }
    requires known { (g : ℕ) → g < group_count → set_has groups g ≡ true → g % most_partitions < length parts.now }
    ensures { IsBest parts.now lists.now (set_has groups) result }
{
    match only(groups) {
        Some(group) => lists.first(level, group),
        None => earliest_leader(lists, parts, level, groups),
    }
}

/// The only group of a set, if it has one group alone.
#[inline(always)]
fn only(set: Bits64) -> Option<usize>
    ensures { IfSome result (IsOnly (set_has set)) }
{
    let Some(group) = set.least() else {
        return None;
    };
    if set.without_least().is_empty() {
        Some(group)
    } else {
        None
    }
}

/// The best of several groups at one level: it compares fractions once for each partition, and of the partitions that have used
/// the least the firsts by their stamps. It stands apart, so that a look at one group alone has no part in what a pass over many
/// needs.
#[inline(never)]
fn earliest_leader(lists: &Lists, parts: &[PartFacts], level: usize, groups: Bits64) -> Entrant
    requires small { All IsSmall parts.now }
    requires queued { IsQueued lists.now }
    requires level { AreAt (firsts_of lists.now) (set_has groups) level }
    requires known { (g : ℕ) → g < group_count → set_has groups g ≡ true → g % most_partitions < length parts.now }
    ensures { IsBest parts.now lists.now (set_has groups) result }
{
    let leaders = least_used(parts, groups);
    if leaders.groups.is_empty() {
        vacant()
    } else {
        lists.earliest(level, leaders.groups)
    }
}

/// The best of groups at any levels: of the partitions that have used the least it compares the firsts at the highest
/// priority alone.
#[inline(never)]
fn highest_leader(lists: &Lists, parts: &[PartFacts], groups: Bits64) -> Entrant
    requires small { All IsSmall parts.now }
    requires queued { IsQueued lists.now }
    requires occupied { (g : ℕ) → g < group_count → set_has groups g ≡ true → level_of (firsts_of lists.now) g < level_count }
    requires known { (g : ℕ) → g < group_count → set_has groups g ≡ true → g % most_partitions < length parts.now }
    ensures { IsBest parts.now lists.now (set_has groups) result }
{
    match lists.least(least_used(parts, groups).groups) {
        Some(found) => lists.earliest(found.level, found.groups),
        None => vacant(),
    }
}
