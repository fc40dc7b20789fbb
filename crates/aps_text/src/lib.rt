//! The journal: the entries of a run as text, one line each, printed and read back.
#![tactic(auto)]

mod fields;
pub mod laws;
mod line;
mod operation;
mod printing;
mod reading;
mod refusal;
mod separator;

pub use line::{LineBuffer, MAX_LINE};
pub use printing::print_journal;
pub use reading::{cpu_of_line, read_journal};
pub use refusal::JournalRefusal;
pub use separator::{JournalAt, journal_at};
