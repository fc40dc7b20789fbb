//! When each processor steps next, kept beside the entries: a step changes the due of its own processor and of the one that it
//! flags.
ghost use Rattle.std.specs.Prelude.{◌≡◌, ◌<◌, ℕ, length, slice_index};
ghost use Rattle.aps_core.specs.NextDues.{dues_after};
ghost use Rattle.aps_model.specs.Limits.{most_cpus};

use aps_model::limits::MOST_CPUS;
use aps_model::{CpuId, Entry, Nanos};
use std::marker::Model;

/// The moments at which the processors step next. Contracts see the row of them.
#[derive(Drop)]
pub struct Dues {
    row: [Nanos; MOST_CPUS],
}

impl Model for Dues {
    ghost use Rattle.std.specs.Prelude.{ℕ, List};

    ghost Value = { List ℕ };

    ghost view = { λ d. d.row };

    ghost use Rattle.std.specs.Prelude.{◌≡◌, length};
    ghost use Rattle.aps_model.specs.Limits.{most_cpus};

    ghost invariant = { λ d. length d.row ≡ most_cpus };
}

impl Dues {
    /// Everybody is due at 0.
    pub fn new() -> Self
        ensures { (d : ℕ) → slice_index result d ≡ 0 }
    {
        Dues {
            row: [0; MOST_CPUS],
        }
    }

    /// When the processor steps next.
    pub fn of(&self, cpu: CpuId) -> Nanos
        ensures { result ≡ slice_index self.now cpu }
    {
        self.row[cpu.index()]
    }

    /// When the processor of this number steps next.
    #[inline(always)]
    pub fn at(&self, d: usize) -> Nanos
        requires { d < most_cpus }
        ensures { result ≡ slice_index self.now d }
    {
        self.row[d]
    }

    /// After the entry: its processor is due then, and who is flagged is due now.
    pub fn go_on(&mut self, e: &Entry, own: Nanos)
        ensures same { self.new ≡ dues_after self.old e.now own }
        ensures whole { length self.old ≡ most_cpus }
    {
        if let Some(d) = e.flagged {
            self.row[d.index()] = e.to;
        }
        self.row[e.cpu.index()] = own;
    }
}
