//! A load of any size, drawn from a seed.
#![tactic(auto)]

mod draws;
mod generator;
mod laws;
mod names;
mod partitions;
#[cfg(test)]
mod tests;
mod threads;

pub use generator::generate;
pub use laws::generated_is_valid;
