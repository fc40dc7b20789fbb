//! By how much partitions overspend their critical budgets.
ghost use Rattle.std.specs.Prelude.{◌≡◌, ◌≤◌, IfSome, Some};
ghost use Rattle.view_shares.specs.Spent as spec;

use aps_model::Nanos;

/// How many entries made a partition bankrupt, when the first of them ended, the greatest excess of critical usage over the
/// critical budget, and when the first entry with that ended; times in ns.
#[derive(Clone, Copy)]
pub struct Spent {
    pub count: u64,
    pub first: Nanos,
    pub worst: Nanos,
    pub at: Nanos,
}

impl Spent {
    /// Once more, at this moment, by so much.
    pub fn once(spent: &Option<Spent>, moment: Nanos, excess: Nanos) -> Spent
        requires { IfSome spent.now (λ s. s.count ≤ 100000000) }
        ensures { result ≡ spec.spent_once spent.now moment excess }
    {
        match spent {
            None => Spent {
                count: 1,
                first: moment,
                worst: excess,
                at: moment,
            },
            Some(s) => Spent {
                count: s.count + 1,
                first: s.first,
                worst: if s.worst < excess { excess } else { s.worst },
                at: if s.worst < excess { moment } else { s.at },
            },
        }
    }
}
