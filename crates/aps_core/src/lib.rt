//! The simulated scheduler: it boots a scenario and makes the steps of its processors, and keeps the history of the run.
//! Threads of several processors share it under a lock above.
#![tactic(auto)]

mod append;
mod classes;
mod due;
mod dues;
mod ends;
mod machine;
mod merit;
mod posts;
mod recording;
mod rooms;
mod scheduler;
mod simulator;
mod standing;
mod turn;
mod usage;

pub use rooms::Room;
pub use simulator::Core;
pub use turn::Turn;
