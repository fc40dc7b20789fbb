//! Why a text gives no scenario, and where.
ghost use Rattle.std.specs.Prelude.{◌≡◌, ◌⊎◌};
ghost use Rattle.toml.specs.Errors.{IsMemory};
ghost use Rattle.aps_scenario.specs.declared.kind.Kind.TheVariants.{NotToml};
ghost use Rattle.aps_scenario.specs.declared.refusal.Failure.TheVariants as failure;
ghost use Rattle.aps_scenario.specs.declared.refusal.ScenarioRefusal.TheVariants as refusal;
ghost use Rattle.aps_scenario.specs.Path.{path_text, whole_text};

use crate::key::Key;
use crate::kind::Kind;
use crate::path::{KeyText, PathText};
use std::alloc::{AllocError, AllocFailed};
use thiserror::Error;
use toml::de;

/// Why a text gives no scenario.
#[derive(Clone, Copy, Debug, PartialEq, Eq, Error)]
pub enum ScenarioRefusal {
    /// The text is no scenario: what is wrong with the first part of it that breaks a rule of the format, and the path
    /// of that part. `docs/FORMATS.md` has the rules and the order of the tests.
    #[error("scenario refused: {kind}")]
    Refused { kind: Kind, path: PathText },
    /// Memory ran out, which tells nothing of the text.
    #[error("out of memory")]
    NoMemory,
}

/// A table: the top one, or an element of an array by its index.
#[derive(Clone, Copy)]
pub enum Place {
    Top,
    Partition(u16),
    Channel(u16),
    Thread(u16),
    Command(u16),
    Demand(u16),
}

/// The part of a text that is refused.
#[derive(Clone, Copy)]
pub enum Part {
    /// A whole table.
    Table(Place),
    /// A key of the format, in a table.
    At(Place, Key),
    /// Another key of a table, as it is told.
    OtherKey(Place, KeyText),
    /// An operation of a thread's program, both by their indices.
    Operation(u16, u16),
}

/// The first part of a text that breaks a rule of the format, and how.
#[derive(Clone, Copy)]
pub struct Finding {
    pub kind: Kind,
    pub part: Part,
}

impl Finding {
    /// The finding as it is told.
    pub fn told(self) -> ScenarioRefusal
        ensures { result ≡ refusal.Refused self.kind (path_text self.part) }
    {
        ScenarioRefusal::Refused {
            kind: self.kind,
            path: PathText::of_part(self.part),
        }
    }
}

/// What is told of bytes that were read as no document.
pub fn no_document(error: &de::Error) -> ScenarioRefusal
    ensures { (result ≡ refusal.NoMemory) ⊎ ((¬ IsMemory error.now) × (result ≡ refusal.Refused NotToml whole_text)) }
{
    if error.is_memory() {
        ScenarioRefusal::NoMemory
    } else {
        ScenarioRefusal::Refused {
            kind: Kind::NotToml,
            path: PathText::whole(),
        }
    }
}

/// Why reading stops.
#[derive(Clone, Copy)]
pub enum Failure {
    Found(Finding),
    NoMemory,
}

impl From<Finding> for Failure {
    ghost from_gives = { λ finding e. e ≡ failure.Found finding };

    fn from(finding: Finding) -> Failure {
        Failure::Found(finding)
    }
}

impl From<AllocError> for Failure {
    ghost from_gives = { λ _ e. e ≡ failure.NoMemory };

    fn from(_: AllocError) -> Failure {
        Failure::NoMemory
    }
}

impl<T: Drop> From<AllocFailed<T>> for Failure {
    ghost from_gives = { λ _ e. e ≡ failure.NoMemory };

    fn from(_: AllocFailed<T>) -> Failure {
        Failure::NoMemory
    }
}
