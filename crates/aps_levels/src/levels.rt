//! Sets of levels, which are numbers below 256, in four words.
ghost use Rattle.std.specs.Prelude.{◌≡◌, ℕ, ◌+◌, ◌*◌, ◌<◌, ◌||◌, ◌&&◌, not, nat_eq, IfSome, IfNone, false};
ghost use Rattle.aps_levels.specs.Bits.{IsLeast, set_has};
ghost use Rattle.aps_levels.specs.Levels.{has_level, level_count};

use crate::bits::Bits64;

/// A set of levels, numbers below 256. Where priorities are kept as levels, 255 less the priority, the least level is the
/// greatest priority.
#[derive(Clone, Copy, PartialEq, Eq)]
pub struct Levels {
    /// levels 0 to 63
    first: Bits64,
    /// levels 64 to 127, each less 64
    second: Bits64,
    /// levels 128 to 191, each less 128
    third: Bits64,
    /// levels 192 to 255, each less 192
    fourth: Bits64,
}

impl Levels {
    /// The set without any level.
    #[inline(always)]
    pub fn none() -> Levels
        ensures { (k : ℕ) → has_level result k ≡ false }
    {
        Levels {
            first: Bits64::none(),
            second: Bits64::none(),
            third: Bits64::none(),
            fourth: Bits64::none(),
        }
    }

    /// Whether the level is in.
    #[inline(always)]
    pub fn has(self, level: usize) -> bool
        requires { level < level_count }
        ensures { result ≡ has_level self level }
    {
        if level < 64 {
            self.first.has(level)
        } else if level < 128 {
            self.second.has(level - 64)
        } else if level < 192 {
            self.third.has(level - 128)
        } else {
            self.fourth.has(level - 192)
        }
    }

    /// The levels from 64 times this number on, each less that.
    #[inline(always)]
    pub fn quarter(self, q: usize) -> Bits64
        requires { q < 4 }
        ensures { (k : ℕ) → k < 64 → set_has result k ≡ has_level self (64 * q + k) }
    {
        if q == 0 {
            self.first
        } else if q == 1 {
            self.second
        } else if q == 2 {
            self.third
        } else {
            self.fourth
        }
    }

    /// The set with this level.
    #[inline(always)]
    pub fn with(self, level: usize) -> Levels
        requires { level < level_count }
        ensures { (k : ℕ) → has_level result k ≡ (nat_eq k level || has_level self k) }
    {
        let mut set = self;
        set.insert(level);
        set
    }

    /// The set without this level.
    #[inline(always)]
    pub fn without(self, level: usize) -> Levels
        requires { level < level_count }
        ensures { (k : ℕ) → has_level result k ≡ (not (nat_eq k level) && has_level self k) }
    {
        let mut set = self;
        set.remove(level);
        set
    }

    /// The level comes in, if it isn't in. One word alone is written.
    #[inline(always)]
    pub fn insert(&mut self, level: usize)
        requires { level < level_count }
        ensures { (k : ℕ) → has_level self.new k ≡ (nat_eq k level || has_level self.old k) }
    {
        if level < 64 {
            self.first = self.first.with(level);
        } else if level < 128 {
            self.second = self.second.with(level - 64);
        } else if level < 192 {
            self.third = self.third.with(level - 128);
        } else {
            self.fourth = self.fourth.with(level - 192);
        }
    }

    /// The level goes, if it is in. One word alone is written.
    #[inline(always)]
    pub fn remove(&mut self, level: usize)
        requires { level < level_count }
        ensures { (k : ℕ) → has_level self.new k ≡ (not (nat_eq k level) && has_level self.old k) }
    {
        if level < 64 {
            self.first = self.first.without(level);
        } else if level < 128 {
            self.second = self.second.without(level - 64);
        } else if level < 192 {
            self.third = self.third.without(level - 128);
        } else {
            self.fourth = self.fourth.without(level - 192);
        }
    }

    /// The least level of the set; none exactly where the set is empty.
    #[inline(always)]
    pub fn least(self) -> Option<usize>
        ensures some { IfSome result (IsLeast level_count (has_level self)) }
        ensures none { IfNone result ((k : ℕ) → has_level self k ≡ false) }
    {
        match self.first.least() {
            Some(level) => Some(level),
            None => match self.second.least() {
                Some(level) => Some(level + 64),
                None => match self.third.least() {
                    Some(level) => Some(level + 128),
                    None => match self.fourth.least() {
                        Some(level) => Some(level + 192),
                        None => None,
                    },
                },
            },
        }
    }
}
