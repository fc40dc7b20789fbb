//! Which groups have somebody at which level.
ghost use Rattle.std.specs.Prelude.{◌≡◌, ℕ, ◌+◌, ◌<◌, ◌≤◌, ◌&&◌, ◌||◌, not, length, nat_eq, IfOk, IfSome, IfNone, true, false};
ghost use Rattle.aps_levels.specs.Bits.{set_has};
ghost use Rattle.aps_levels.specs.Levels.{has_level, level_count};
ghost use Rattle.aps_ready.specs.Table.{bits_at, levels_at, AreAtLeast, HasLevel, IsFirstLevel, IsLevelFree};
ghost use Rattle.aps_ready.specs.Group.{group_count};

use aps_levels::{Bits64, Levels};
use aps_model::NoMemory;
use std::alloc::Global;
use std::marker::Model;

/// How many words of 64 levels there are.
const QUARTERS: usize = 4;

/// Groups that are at one level.
#[derive(Clone, Copy)]
pub struct Found {
    pub level: usize,
    pub groups: Bits64,
}

/// For each level the groups that have somebody there. Contracts see these sets.
#[derive(Drop)]
pub struct Table {
    at_level: Vec<Bits64>,
    /// the levels at which any group is
    levels: Levels,
    /// the levels of each group
    of_group: Vec<Levels>,
    /// the groups that are at any level
    occupied: Bits64,
}

impl Model for Table {
    ghost use Rattle.std.specs.Prelude.{List};
    ghost use Rattle.aps_levels.specs.declared.bits.Bits64.{Bits64};
    ghost use Rattle.aps_ready.specs.Table.{IsLevelTable};

    ghost Value = { List Bits64 };

    ghost view = { λ t. t.at_level.items };

    ghost invariant = { λ t. IsLevelTable t.at_level.items t.levels t.of_group.items t.occupied };
}

impl Table {
    /// No group is at any level.
    pub fn new(alloc: Global) -> Result<Table, NoMemory>
        ensures { IfOk result (λ table. (l g : ℕ) → set_has (bits_at table l) g ≡ false) }
    {
        let at_level = vec![in alloc; Bits64::none(); 256]?;
        let of_group = vec![in alloc; Levels::none(); 64]?;
        Ok(Table {
            at_level,
            levels: Levels::none(),
            of_group,
            occupied: Bits64::none(),
        })
    }

    /// A group is at a level from now on.
    #[inline(always)]
    pub fn enter(&mut self, level: usize, group: usize)
        requires level { level < level_count }
        requires group { group < group_count }
        ensures { (l g : ℕ) → l < level_count
            → set_has (bits_at self.new l) g ≡ ((nat_eq l level && nat_eq g group) || set_has (bits_at self.old l) g) }
    {
        add_group(&mut self.at_level, level, group);
        add_level(&mut self.of_group, level, group);
        self.levels.insert(level);
        self.occupied = self.occupied.with(group);
    }

    /// A group is no longer at a level.
    #[inline(always)]
    pub fn leave(&mut self, level: usize, group: usize)
        requires level { level < level_count }
        requires group { group < group_count }
        ensures { (l g : ℕ) → l < level_count
            → set_has (bits_at self.new l) g ≡ (not (nat_eq l level && nat_eq g group) && set_has (bits_at self.old l) g) }
    {
        remove_group(&mut self.at_level, &mut self.levels, level, group);
        self.occupied = remove_level(&mut self.of_group, self.occupied, level, group);
    }

    /// The groups that are at any level.
    #[inline(always)]
    pub fn occupied(&self) -> Bits64
        ensures some { (g : ℕ) → g < group_count → set_has result g ≡ true → HasLevel self.now g }
        ensures all { (l g : ℕ) → l < level_count → g < group_count → set_has (bits_at self.now l) g ≡ true → set_has result g ≡ true }
    {
        self.occupied
    }

    /// Of the groups of a set those at the least level at which any of them is; none exactly where none is at any.
    #[inline(always)]
    pub fn least(&self, set: Bits64) -> Option<Found>
        ensures some { IfSome result (λ found. AreAtLeast self.now (set_has set) found.level (set_has found.groups)) }
        ensures none { IfNone result ((l : ℕ) → l < level_count → IsLevelFree self.now (set_has set) l) }
    {
        'quarters: for q in 0..QUARTERS {
            let word = self.levels.quarter(q);
            if let Some(found) = least_among(&self.at_level, word, 64 * q, set) {
                return Some(found);
            }
        }
        None
    }
}

/// Of the levels from `from` on that a word has, each less `from`, the least at which any group of a set is.
#[inline(always)]
fn least_among(at_level: &[Bits64], word: Bits64, from: usize, set: Bits64) -> Option<Found>
    requires { from + 64 ≤ length at_level.now }
    ensures some { IfSome result (λ found. IsFirstLevel at_level.now word (set_has set) from found.level (set_has found.groups)) }
    ensures none { IfNone result ((k : ℕ) → k < 64 → set_has word k ≡ true → IsLevelFree at_level.now (set_has set) (from + k)) }
{
    let mut left = word;
    'levels: while let Some(place) = left.least() {
        let level = from + place;
        let groups = at_level[level].meet(set);
        if !groups.is_empty() {
            return Some(Found { level, groups });
        }
        left = left.without_least();
    }
    None
}

/// A group is at a level from now on.
#[inline(always)]
fn add_group(at_level: &mut Vec<Bits64>, level: usize, group: usize)
    requires level { level < length at_level.old.items }
    requires group { group < group_count }
    ensures count { length at_level.new.items ≡ length at_level.old.items }
    ensures at { (l g : ℕ) → set_has (bits_at at_level.new.items l) g
        ≡ ((nat_eq l level && nat_eq g group) || set_has (bits_at at_level.old.items l) g) }
{
    at_level[level] = at_level[level].with(group);
}

/// A level is one of those of a group from now on.
#[inline(always)]
fn add_level(of_group: &mut Vec<Levels>, level: usize, group: usize)
    requires level { level < level_count }
    requires group { group < length of_group.old.items }
    ensures count { length of_group.new.items ≡ length of_group.old.items }
    ensures at { (l g : ℕ) → has_level (levels_at of_group.new.items g) l
        ≡ ((nat_eq l level && nat_eq g group) || has_level (levels_at of_group.old.items g) l) }
{
    of_group[group].insert(level);
}

/// A group is no longer at a level. The levels are those at which groups are, before and afterwards.
#[inline(always)]
fn remove_group(at_level: &mut Vec<Bits64>, levels: &mut Levels, level: usize, group: usize)
    requires level { level < level_count }
    requires group { group < group_count }
    requires count { length at_level.old.items ≡ level_count }
    ensures count { length at_level.new.items ≡ level_count }
    ensures at { (l g : ℕ) → set_has (bits_at at_level.new.items l) g
        ≡ (not (nat_eq l level && nat_eq g group) && set_has (bits_at at_level.old.items l) g) }
    ensures in_use { (l g : ℕ) → l < level_count → g < group_count → set_has (bits_at at_level.new.items l) g ≡ true
        → has_level levels.old l ≡ true → has_level levels.new l ≡ true }
    ensures before { (l : ℕ) → has_level levels.new l ≡ true → has_level levels.old l ≡ true }
    ensures own { has_level levels.new level ≡ true → (g : ℕ) × (g < group_count) × (set_has (bits_at at_level.new.items level) g ≡ true) }
{
    let rest = at_level[level].without(group);
    at_level[level] = rest;
    if rest.is_empty() {
        levels.remove(level);
    }
}

/// A level is no longer one of those of a group. The answer are the groups that are at any level afterwards.
#[inline(always)]
fn remove_level(of_group: &mut Vec<Levels>, occupied: Bits64, level: usize, group: usize) -> Bits64
    requires level { level < level_count }
    requires group { group < group_count }
    requires count { length of_group.old.items ≡ group_count }
    ensures count { length of_group.new.items ≡ group_count }
    ensures at { (l g : ℕ) → has_level (levels_at of_group.new.items g) l
        ≡ (not (nat_eq l level && nat_eq g group) && has_level (levels_at of_group.old.items g) l) }
    ensures all { (l g : ℕ) → l < level_count → g < group_count → has_level (levels_at of_group.new.items g) l ≡ true
        → set_has occupied g ≡ true → set_has result g ≡ true }
    ensures before { (g : ℕ) → set_has result g ≡ true → set_has occupied g ≡ true }
    ensures own { set_has result group ≡ true → (l : ℕ) × (l < level_count) × (has_level (levels_at of_group.new.items group) l ≡ true) }
{
    let rest = &mut of_group[group];
    rest.remove(level);
    match rest.least() {
        None => occupied.without(group),
        Some(_) => occupied,
    }
}
