//! Traces of a recorded history for viewers, as trace events.
#![tactic(auto)]

mod arrows;
mod counters;
mod instants;
pub mod laws;
mod names;
mod place;
mod slices;
mod tracks;
mod words;
mod writing;

pub use writing::trace;
