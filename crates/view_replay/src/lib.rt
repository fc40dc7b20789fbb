//! A run made step by step, or a recorded one made again, for callers that look at each state before its step.
#![tactic(auto)]

mod retracing;
mod turn;

pub use retracing::{boot, retrace, retrace_rest, rows_after, rows_of};
pub use turn::take_turn;
