//! Names as keys of a map.
ghost use Rattle.std.specs.Prelude.{◌≡◌};

use aps_model::Name;
use std::hash::{Hash, Hasher};
use std::marker::Model;

/// A name as the key of a map. Contracts know by which bytes two of them are equal.
#[derive(Clone, Copy)]
pub struct Key {
    name: Name,
}

impl Model for Key {
    ghost use Rattle.std.specs.Prelude.{ℕ, List};

    ghost Value = { List ℕ };

    ghost view = { λ k. k.name };

    ghost inverse = { λ text. record { name = text } };
}

impl Key {
    /// The key of a name.
    pub fn new(name: Name) -> Key
        ensures { result ≡ name }
    {
        Key { name }
    }
}

impl PartialEq for Key {
    ghost use Rattle.std.specs.Str.{bytes_eq};
    ghost use Rattle.std.specs.Cmp.{partial_equiv_from_equiv};
    ghost use Rattle.std.specs.Cmp.Lexicographic.{nat_list_eq_equiv};

    ghost eq = { bytes_eq };

    ghost laws = { partial_equiv_from_equiv nat_list_eq_equiv };

    fn eq(&self, other: &Key) -> bool {
        self.name.text() == other.name.text()
    }
}

impl Eq for Key {
    ghost use Rattle.std.specs.Cmp.Lexicographic.{nat_list_eq_equiv};

    ghost laws = { nat_list_eq_equiv };
}

impl Hash for Key {
    ghost use Rattle.std.specs.Hash as fed;
    ghost use Rattle.std.proofs.Common.{rules};
    ghost use Rattle.std.specs.Cmp.Rules.{hashing};

    ghost hash_input = { fed.slice fed.u8 };

    ghost respects_eq = { Prim.search (hashing, rules) };

    fn hash<H: Hasher>(&self, state: &mut H) {
        self.name.text().hash(state);
    }
}
