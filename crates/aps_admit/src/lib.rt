//! The least budgets by which demands are met in every window, and the text that tells them.
//!
//! A demand is so many ns of processor time in each window, and a budget counts in parts of all processor time, 100 or
//! 1,000. A partition may fall short of its budget by one tick of each processor for each other partition, so each
//! budget is the least one that gives the need and that slack for every demand.
#![tactic(auto)]

mod admission;
mod budgets;
pub mod laws;
mod least;
mod text;

pub use admission::{Admission, Granted, Grants};
pub use budgets::admit;
pub use text::print;
