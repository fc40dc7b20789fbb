//! The threads of a run: a driver takes the turns of one seat of the dispatcher, and `run_all` drives the seats of all
//! processors at once, until the run has ended. A gate is entered before each turn.
#![tactic(auto)]

mod driver;
mod gate;
mod meet_gate;
mod patience;
mod threads;

pub use driver::{Driven, drive};
pub use gate::{ClockGate, Gate, OpenGate};
pub use meet_gate::MeetGate;
pub use threads::run_all;
