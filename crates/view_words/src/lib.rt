//! The report that a list of words asks for.
#![tactic(auto)]

mod asked;
mod options;
mod values;

pub use asked::{Asked, Picture, Report, Ticks, Trace, asked_of};
