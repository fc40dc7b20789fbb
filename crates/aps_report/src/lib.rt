//! The reports that a run prints: the summary of its history, its windows and its journal.
#![tactic(auto)]

mod audit;
mod by_entry;
mod by_window;
mod lines;
mod overview;
mod replies;
mod totals;
mod zeros;

pub use by_entry::{JournalFault, journal};
pub use by_window::windows;
pub use overview::{summary, usage};
