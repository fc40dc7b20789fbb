//! What is wrong with a text.
ghost use Rattle.std.specs.Prelude.{◌≡◌};
ghost use Rattle.aps_scenario.specs.Kind.{kind_word};

use std::fmt;

/// What is wrong with a text, or with a part of it.
#[derive(Clone, Copy, Debug, PartialEq, Eq)]
pub enum Kind {
    /// The bytes are no document.
    NotToml,
    /// A required key is absent.
    Missing,
    /// A key that the format doesn't have.
    UnknownKey,
    /// A value of another kind than the key's.
    WrongKind,
    /// A number, a word or a length outside the key's range.
    OutOfRange,
    /// A text that can't be a name.
    BadName,
    /// A name that nothing has.
    UnknownName,
    /// A name that an earlier element has.
    Duplicate,
    /// A text that is no operation, or an operation that can't stand at its place in the program; `at` is its index
    /// there, from 0.
    BadOperation { at: u16 },
    /// A budget that the parent hasn't left.
    BudgetOver,
}

impl Kind {
    /// The word by which the kind is printed.
    pub fn word(self) -> &'static str
        ensures { result.now ≡ kind_word self }
    {
        match self {
            Kind::NotToml => "not-toml",
            Kind::Missing => "missing",
            Kind::UnknownKey => "unknown-key",
            Kind::WrongKind => "wrong-kind",
            Kind::OutOfRange => "out-of-range",
            Kind::BadName => "bad-name",
            Kind::UnknownName => "unknown-name",
            Kind::Duplicate => "duplicate",
            Kind::BadOperation { .. } => "bad-operation",
            Kind::BudgetOver => "budget-over",
        }
    }
}

impl fmt::Display for Kind {
    ghost use Rattle.std.specs.Prelude.{Some};
    ghost use Rattle.aps_scenario.specs.Kind.{kind_word};

    ghost output = { λ kind. Some (kind_word kind) };

    fn fmt<W: fmt::Write>(&self, f: &mut fmt::Formatter<W>) -> fmt::Result {
        f.write_str(self.word())
    }
}
