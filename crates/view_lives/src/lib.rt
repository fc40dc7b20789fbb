//! What is derived from a recorded history: the lives of its threads, and their cycles.
#![tactic(auto)]

mod cycle;
mod doing;
mod growing;
pub mod laws;
mod life;
mod retracing;
mod tally;
pub mod text;
mod waits;

pub use cycle::{Begun, Cycle, Cycles, Times};
pub use doing::{Doing, does};
pub use growing::GrowingLives;
pub use life::{Life, Segment};
pub use retracing::lives;
pub use tally::{Longest, Tally};
pub use waits::{Wait, Waits, tally_cycles};
