//! The partition tree as commands change it: rows in order of their ids, found by name, whose budgets always sum to
//! the parts.
#![tactic(auto)]

mod changes;
mod key;
mod rows;
mod tree;

pub use tree::Tree;
