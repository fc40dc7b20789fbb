//! Sets of numbers below 64, in one word.
ghost use Rattle.std.specs.Prelude.{◌≡◌, ℕ, ◌+◌, ◌<◌, ◌||◌, ◌&&◌, not, nat_eq, nat_lt, if◌then◌else◌, IfSome, IfNone, IsTrue, true, false};
ghost use Rattle.aps_levels.specs.Bits.{set_has, IsLeast};

/// A set of numbers below 64.
#[derive(Clone, Copy, PartialEq, Eq)]
pub struct Bits64 {
    word: u64,
}

impl Bits64 {
    /// The set without any number.
    #[inline(always)]
    pub fn none() -> Bits64
        ensures { (k : ℕ) → set_has result k ≡ false }
    {
        Bits64 { word: 0 }
    }

    /// Whether no number is in.
    #[inline(always)]
    pub fn is_empty(self) -> bool
        ensures empty { IsTrue result → (k : ℕ) → set_has self k ≡ false }
        ensures some { result ≡ false → (k : ℕ) × (k < 64) × (set_has self k ≡ true) }
    {
        match self.least() {
            None => true,
            Some(_) => false,
        }
    }

    /// Whether the number is in.
    #[inline(always)]
    pub fn has(self, i: usize) -> bool
        requires { i < 64 }
        ensures { result ≡ set_has self i }
    {
        (self.word >> i) & 1 == 1
    }

    /// The set with this number.
    #[inline(always)]
    pub fn with(self, i: usize) -> Bits64
        requires { i < 64 }
        ensures { (k : ℕ) → set_has result k ≡ (nat_eq k i || set_has self k) }
    {
        Bits64 {
            word: self.word | 1 << i,
        }
    }

    /// The set without this number.
    #[inline(always)]
    pub fn without(self, i: usize) -> Bits64
        requires { i < 64 }
        ensures { (k : ℕ) → set_has result k ≡ (not (nat_eq k i) && set_has self k) }
    {
        Bits64 {
            word: self.word & !(1 << i),
        }
    }

    /// The set without its least number.
    #[inline(always)]
    pub fn without_least(self) -> Bits64
        ensures { (i : ℕ) → IsLeast 64 (set_has self) i → (k : ℕ) → set_has result k ≡ (not (nat_eq k i) && set_has self k) }
    {
        if self.word == 0 {
            self
        } else {
            Bits64 {
                word: self.word & (self.word - 1),
            }
        }
    }

    /// The set with this number where `is_in` says so, and else without it.
    #[inline(always)]
    pub fn put(self, i: usize, is_in: bool) -> Bits64
        requires { i < 64 }
        ensures { (k : ℕ) → set_has result k ≡ (if nat_eq k i then is_in else set_has self k) }
    {
        if is_in { self.with(i) } else { self.without(i) }
    }

    /// The numbers that both sets have.
    #[inline(always)]
    pub fn meet(self, other: Bits64) -> Bits64
        ensures { (k : ℕ) → set_has result k ≡ (set_has self k && set_has other k) }
    {
        Bits64 {
            word: self.word & other.word,
        }
    }

    /// The numbers that either set has.
    #[inline(always)]
    pub fn join(self, other: Bits64) -> Bits64
        ensures { (k : ℕ) → set_has result k ≡ (set_has self k || set_has other k) }
    {
        Bits64 {
            word: self.word | other.word,
        }
    }

    /// The numbers of this set that the other hasn't.
    #[inline(always)]
    pub fn minus(self, other: Bits64) -> Bits64
        ensures { (k : ℕ) → k < 64 → set_has result k ≡ (set_has self k && not (set_has other k)) }
    {
        Bits64 {
            word: self.word & !other.word,
        }
    }

    /// The numbers from 32 on, each less 32.
    #[inline(always)]
    pub fn upper_half(self) -> Bits64
        ensures { (k : ℕ) → set_has result k ≡ set_has self (k + 32) }
    {
        Bits64 {
            word: self.word >> 32,
        }
    }

    /// The numbers below 32.
    #[inline(always)]
    pub fn lower_half(self) -> Bits64
        ensures { (k : ℕ) → set_has result k ≡ (nat_lt k 32 && set_has self k) }
    {
        Bits64 {
            word: self.word & 0xffff_ffff,
        }
    }

    /// The numbers below `end`.
    #[inline(always)]
    pub fn below(self, end: usize) -> Bits64
        ensures { (k : ℕ) → set_has result k ≡ (nat_lt k end && set_has self k) }
    {
        if end < 64 {
            Bits64 {
                word: self.word & ((1 << end) - 1),
            }
        } else {
            self
        }
    }

    /// The least number of the set; none exactly where the set is empty.
    #[inline(always)]
    pub fn least(self) -> Option<usize>
        ensures some { IfSome result (IsLeast 64 (set_has self)) }
        ensures none { IfNone result ((k : ℕ) → set_has self k ≡ false) }
    {
        if self.word == 0 {
            None
        } else {
            Some(self.word.trailing_zeros() as usize)
        }
    }
}
