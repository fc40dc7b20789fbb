//! The scenario that a text is, or why it is none; and the demands that a text states.
#![tactic(auto)]

mod calls;
mod channels;
mod commands;
mod demands;
mod joinable;
mod key;
mod kind;
pub mod laws;
mod operation;
mod partitions;
mod path;
mod printing;
mod program;
mod reading;
mod refusal;
mod row;
mod sizes;
mod threads;
mod upgrading;
mod words;

pub use demands::{Demands, demands_of};
pub use kind::Kind;
pub use path::PathText;
pub use printing::print;
pub use reading::scenario_of;
pub use refusal::ScenarioRefusal;
pub use upgrading::upgrade;
pub use words::{CommandKind, command_kind};
