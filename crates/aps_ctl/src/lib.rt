//! The timed commands: which are still to come, and what each answers and changes when it is done.
#![tactic(auto)]

mod command;
pub mod laws;
mod outcome;
mod pending;

pub use command::perform;
pub use outcome::{change_by, mark_by};
pub use pending::Ctl;
