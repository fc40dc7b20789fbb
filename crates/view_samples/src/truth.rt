//! Truths that a loop keeps as one value.
ghost use Rattle.std.specs.Prelude.{◌≡◌, ◌&&◌, ◌||◌, not, nat_lt};

/// Whether one or the other holds.
pub fn or(a: bool, b: bool) -> bool
    ensures { result ≡ (a || b) }
{
    a || b
}

/// Whether neither holds.
pub fn nor(a: bool, b: bool) -> bool
    ensures { result ≡ not (a || b) }
{
    !(a || b)
}

/// Whether this holds, and the number isn't below the other.
pub fn and_not_below(holds: bool, first: u64, last: u64) -> bool
    ensures { result ≡ (holds && not (nat_lt first last)) }
{
    holds && !(first < last)
}
