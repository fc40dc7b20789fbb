//! Tallies of waits: how many, how long together, and the longest.
ghost use Rattle.std.specs.Prelude.{◌≡◌, ℕ, ◌+◌};
ghost use Rattle.view_lives.specs.Few.{AreFew, HasRoomForOne};
ghost use Rattle.view_lives.specs.Tally as spec;

use aps_model::Nanos;

/// The longest of some waits, and when it began (ns); of equal ones the first.
#[derive(Clone, Copy, PartialEq, Eq)]
pub struct Longest {
    pub ns: Nanos,
    pub begin: Nanos,
}

/// How many waits there were, how long they were together (ns), and the longest, if there were any.
#[derive(Clone, Copy, PartialEq, Eq)]
pub struct Tally {
    pub count: u64,
    pub total: u128,
    pub longest: Option<Longest>,
}

impl Tally {
    /// No waits.
    pub fn none() -> Tally
        ensures { result ≡ spec.no_tally }
    {
        Tally {
            count: 0,
            total: 0,
            longest: None,
        }
    }

    /// The tally with one wait more.
    pub fn with(self, begin: Nanos, ns: Nanos) -> Tally
        requires { HasRoomForOne self }
        ensures same { result ≡ spec.tallied self begin ns }
        ensures few { (n : ℕ) → AreFew n self → AreFew (n + 1) result }
    {
        Tally {
            count: self.count + 1,
            total: self.total + u128::from(ns),
            longest: Some(longer(&self.longest, begin, ns)),
        }
    }
}

/// The longer of the longest so far and one wait more, and of equal ones the first.
fn longer(longest: &Option<Longest>, begin: Nanos, ns: Nanos) -> Longest
    ensures { result ≡ spec.longer_wait longest.now begin ns }
{
    match longest {
        Some(first) if ns <= first.ns => *first,
        _ => Longest { ns, begin },
    }
}
