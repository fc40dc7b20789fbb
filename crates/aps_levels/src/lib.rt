//! Small sets of numbers, a bit for each: `Bits64` of numbers below 64, `Levels` of numbers below 256. Each call is a few
//! instructions, takes no memory, and is exact in its clauses.
#![tactic(auto)]

mod bits;
mod levels;

pub use bits::Bits64;
pub use levels::Levels;
