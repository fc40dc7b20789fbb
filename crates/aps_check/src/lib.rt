//! Judges a journal: whether each of its entries is a step that the scheduler makes for a scenario, and if not, which
//! is the first that isn't, and why. By whom the journal was made doesn't matter.
#![tactic(auto)]

mod difference;
mod following;
mod judging;
pub mod laws;
pub mod text;
mod verdict;

pub use following::check_text;
pub use judging::check;
pub use verdict::{Rule, Verdict};
