//! Round steps for a scale.
ghost use Rattle.std.specs.Prelude.{◌≡◌, ℕ, ◌+◌, ◌*◌, ◌<◌, ◌≤◌};
ghost use Rattle.view_svg.specs.Step.{IsRound, greatest_step};
ghost use Rattle.view_svg.specs.Span.{last_shown};

/// The least round step by which a length is divided into at most so many: 1, 2 or 5 times a power of ten.
pub fn step_of(length: u64, most: u64) -> u64
    requires some { 0 < most }
    requires short { length ≤ last_shown }
    ensures some { 1 ≤ result }
    ensures few { result ≤ greatest_step }
    ensures round { IsRound result }
    ensures enough { length ≤ result * most }
    ensures least { (step : ℕ) → IsRound step → length ≤ step * most → result ≤ step }
{
    round_at_least(length.div_ceil(most))
}

/// The least round number that isn't below this one.
fn round_at_least(number: u64) -> u64
    requires { number ≤ last_shown }
    ensures some { 1 ≤ result }
    ensures round { IsRound result }
    ensures enough { number ≤ result }
    ensures least { (step : ℕ) → IsRound step → number ≤ step → result ≤ step }
    ensures near { 2 ≤ number → 2 * result + 5 ≤ 5 * number }
{
    match number {
        0 | 1 => 1,
        2 => 2,
        3..=5 => 5,
        _ => 10 * round_at_least(number.div_ceil(10)),
    }
}
