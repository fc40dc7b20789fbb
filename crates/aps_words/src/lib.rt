//! The command that a list of words is, and what other commands' words are read with.
#![tactic(auto)]

mod command;
mod number;
pub mod options;
mod plain;
mod values;

pub use command::{Command, Report, WordsRefusal, command_of};
pub use number::number_in;
pub use plain::is_plain;
pub use values::{limit_of, required_in};
