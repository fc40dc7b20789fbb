//! The whole program `apsview` as calls: what the words ask for is read, done and told, and the answers are those of the
//! definitions.
#![tactic(auto)]

pub mod calm;
mod drawing;
pub mod hint;
mod naming;
mod outcome;
mod reading;
mod refusal;
mod report;
mod running;
pub mod top;
mod traced;
mod viewing;
