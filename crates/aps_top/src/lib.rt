//! The whole program as two calls: what the words ask for is read, done and told, and the answers are those of the
//! definitions.
#![tactic(auto)]

mod answer;
pub mod hint;
mod outcome;
mod reading;
mod report;
mod run;
mod threads;
pub mod top;
