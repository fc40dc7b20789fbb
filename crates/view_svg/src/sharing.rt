//! The share of a part.
ghost use Rattle.std.specs.Prelude.{◌≡◌, ◌*◌, ◌/◌, ◌<◌, ◌≤◌};

/// How many of these units the part has, where the whole has all of them, rounded down.
pub fn share(part: u64, units: u64, whole: u64) -> u64
    requires some { 0 < whole }
    requires part { part ≤ whole }
    ensures same { result ≡ part * units / whole }
    ensures few { result ≤ units }
{
    (u128::from(part) * u128::from(units) / u128::from(whole)) as u64
}
