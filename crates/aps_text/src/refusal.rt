//! Why a text is no journal.
ghost use Rattle.std.specs.Prelude.{◌≡◌};
ghost use Rattle.aps_text.specs.declared.refusal.JournalRefusal.TheVariants.{NoMemory};

use std::alloc::{AllocError, AllocFailed};
use thiserror::Error;

/// Why bytes were not read as a journal.
#[derive(Clone, Copy, Debug, PartialEq, Eq, Error)]
pub enum JournalRefusal {
    /// The bytes are no journal. The place is that of the first byte such that no journal begins
    /// with the bytes up to it, or one past the end where the text stops inside a line. Lines and
    /// columns count from 1, columns in bytes.
    #[error("no journal line at line {line}, column {column}")]
    BadLine { line: u32, column: u32 },
    /// Memory ran out.
    #[error("out of memory")]
    NoMemory,
}

impl From<AllocError> for JournalRefusal {
    ghost from_gives = { λ _ refusal. refusal ≡ NoMemory };

    fn from(_error: AllocError) -> JournalRefusal {
        JournalRefusal::NoMemory
    }
}

impl<T: Drop> From<AllocFailed<T>> for JournalRefusal {
    ghost from_gives = { λ _ refusal. refusal ≡ NoMemory };

    fn from(_error: AllocFailed<T>) -> JournalRefusal {
        JournalRefusal::NoMemory
    }
}
