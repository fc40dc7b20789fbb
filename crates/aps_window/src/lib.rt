//! What each partition was billed in the last ticks: rotating slots with totals. A bill, a tick more, and the question
//! what a partition used in the window each take a time that doesn't grow with the window.
#![tactic(auto)]

mod account;
mod laws;
mod slot;
mod window;

pub use window::Window;
