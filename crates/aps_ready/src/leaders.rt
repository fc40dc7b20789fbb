//! The groups of those partitions that have used the least fraction of their budgets.
ghost use Rattle.std.specs.Prelude.{◌≡◌, ℕ, ◌+◌, ◌<◌, ◌≤◌, ◌%◌, ◌||◌, ◌&&◌, nat_eq, nat_lt, true, false, length, Bool, All};
ghost use Rattle.aps_levels.specs.Bits.{set_has};
ghost use Rattle.aps_model.specs.Budget.{part_at};
ghost use Rattle.aps_model.specs.Limits.{most_partitions, most_used, thousandths};
ghost use Rattle.aps_model.specs.Merit.{smaller};
ghost use Rattle.aps_ready.specs.Leaders.{HasGroup, AreLeading, AreLeaders};
ghost use Rattle.aps_ready.specs.Small.{IsSmall};
ghost use Rattle.aps_ready.specs.Group.{group_count};

use crate::parts::part_of;
use aps_levels::Bits64;
use aps_model::PartFacts;
use aps_model::limits::MOST_PARTITIONS;

/// Groups whose partitions have used the least fraction of their budgets of those seen so far, and that fraction: `used` of
/// `budget`. Of no budget 1 is used, so that two products tell which of two fractions is the smaller.
#[derive(Clone, Copy)]
pub struct Leaders {
    pub groups: Bits64,
    used: u64,
    budget: u64,
}

/// Of these groups those whose partitions have used the least fraction of their budgets.
#[inline(always)]
pub fn least_used(parts: &[PartFacts], groups: Bits64) -> Leaders
    requires small { All IsSmall parts.now }
    requires known { (g : ℕ) → g < group_count → set_has groups g ≡ true → g % most_partitions < length parts.now }
    ensures { AreLeaders parts.now (set_has groups) result }
{
    let mut leaders = nobody();
    let mut left = partitions_of(groups).below(parts.len());
    'partitions: while let Some(p) = left.least() {
        leaders = with_partition(leaders, parts, groups, p);
        left = left.without_least();
    }
    Leaders {
        groups: leaders.groups.meet(groups),
        ..leaders
    }
}

/// The leaders where no group was seen.
#[inline(always)]
fn nobody() -> Leaders
    ensures groups { (g : ℕ) → set_has result.groups g ≡ false }
    ensures used { result.used ≡ 1 }
    ensures budget { result.budget ≡ 0 }
{
    Leaders {
        groups: Bits64::none(),
        used: 1,
        budget: 0,
    }
}

/// The partitions that any of the groups is of.
#[inline(always)]
pub fn partitions_of(groups: Bits64) -> Bits64
    ensures some { (p : ℕ) → set_has result p ≡ true → HasGroup (set_has groups) p }
    ensures all { (g : ℕ) → g < group_count → set_has groups g ≡ true → set_has result (g % most_partitions) ≡ true }
{
    groups.join(groups.upper_half()).lower_half()
}

/// The leaders after the groups of one more partition were seen. A group of it that isn't among these groups can come in too.
#[inline(always)]
fn with_partition(leaders: Leaders, parts: &[PartFacts], groups: Bits64, p: usize) -> Leaders
    requires p { HasGroup (set_has groups) p }
    requires known { p < length parts.now }
    requires small { All IsSmall parts.now }
    requires one { leaders.budget ≡ 0 → leaders.used ≡ 1 }
    requires used { leaders.used ≤ most_used }
    requires budget { leaders.budget ≤ thousandths }
    ensures { (seen : ℕ → Bool) → AreLeading parts.now seen leaders
        → AreLeading parts.now (λ g. seen g || (set_has groups g && nat_eq (g % most_partitions) p)) result }
{
    let part = part_of(parts, p);
    let these = groups_of(p);
    if has_more(&part, &leaders) {
        leaders
    } else if has_less(&part, &leaders) {
        Leaders {
            groups: these,
            used: part.used,
            budget: u64::from(part.budget),
        }
    } else {
        Leaders {
            groups: leaders.groups.join(these),
            ..leaders
        }
    }
}

/// Whether a partition has used less than the leaders.
#[inline(always)]
fn has_less(part: &PartFacts, leaders: &Leaders) -> bool
    requires part { IsSmall part.now }
    requires one { leaders.now.budget ≡ 0 → leaders.now.used ≡ 1 }
    requires used { leaders.now.used ≤ most_used }
    requires budget { leaders.now.budget ≤ thousandths }
    ensures { result ≡ smaller part.now.used part.now.budget leaders.now.used leaders.now.budget }
{
    part.used * leaders.budget < leaders.used * u64::from(part.budget)
}

/// Whether a partition has used more than the leaders.
#[inline(always)]
fn has_more(part: &PartFacts, leaders: &Leaders) -> bool
    requires part { IsSmall part.now }
    requires used { leaders.now.used ≤ most_used }
    requires budget { leaders.now.budget ≤ thousandths }
    ensures { result ≡ smaller leaders.now.used leaders.now.budget part.now.used part.now.budget }
{
    if part.budget == 0 {
        leaders.budget > 0
    } else {
        part.used * leaders.budget > leaders.used * u64::from(part.budget)
    }
}

/// The two groups of a partition.
#[inline(always)]
fn groups_of(p: usize) -> Bits64
    requires { p < most_partitions }
    ensures { (g : ℕ) → g < group_count → set_has result g ≡ nat_eq (g % most_partitions) p }
{
    Bits64::none().with(p).with(p + MOST_PARTITIONS)
}
