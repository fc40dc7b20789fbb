//! The threads that sleep, and which of them wakes next: the one with the earliest moment, then with the lowest number.
#![tactic(auto)]

mod asleep;
mod buckets;
pub mod laws;
mod lines;
mod list;
mod sleeper;
mod timer;

pub use timer::Timer;
