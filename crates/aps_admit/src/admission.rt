//! What is answered to demands.
ghost use Rattle.std.specs.Prelude.{◌≡◌};

use aps_model::Name;
use std::marker::Model;

/// The budget of one demand, in parts of all processor time: the least one whose allowance, in ns of a window, is at
/// least the need and the slack of all demands. `below` is the allowance of one part less, which isn't enough.
#[derive(Clone, Copy, PartialEq, Eq)]
pub struct Granted {
    pub name: Name,
    pub budget: u16,
    pub allowance: u64,
    pub below: u64,
}

/// Budgets, in the order of the demands. Contracts see them as a list.
#[derive(Drop)]
pub struct Grants {
    grants: Vec<Granted>,
}

impl Model for Grants {
    ghost use Rattle.std.specs.Prelude.{List};
    ghost use Rattle.aps_admit.specs.declared.admission.Granted.{Granted};

    ghost Value = { List Granted };

    ghost view = { λ g. g.grants.items };
}

impl Grants {
    /// These budgets. It takes no memory.
    pub fn new(grants: Vec<Granted>) -> Self
        ensures { result ≡ grants.items }
    {
        Grants { grants }
    }

    /// The budgets, in order.
    pub fn as_slice(&self) -> &[Granted]
        ensures { result.now ≡ self.now }
    {
        self.grants.as_slice()
    }

    /// The budgets, taken out. It takes no memory.
    pub fn into_vec(self) -> Vec<Granted>
        ensures { result.items ≡ self }
    {
        self.grants
    }
}

/// What is answered to demands.
#[derive(Drop)]
pub enum Admission {
    /// All demands are met with these budgets.
    Budgets(Grants),
    /// They can't be met: their least budgets sum to `sum` parts, more than there are.
    Needs { sum: u32 },
}
