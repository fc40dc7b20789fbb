//! What reports of a run tell, tied to the laws of runs: of every legal history of every valid scenario, in either order. Each law
//! is the contract of a function with an empty body.
#![tactic(auto)]

pub mod latency;
pub mod lives;
pub mod samples;
pub mod shares;
