//! What a window's usage has to do with budgets, in every legal history, in either order and of every scenario.
//! Each law is the contract of a function with an empty body. `excess` bounds what a partition uses in any ticks without
//! a change, whoever has work, `served` says where the window bound holds, and `bound` has the two bounds; `loaded` has
//! what the numbers of an audit inherit from them, `picks` what a pick tells of its partition, and `windows` the
//! arithmetic of windows, which knows nothing of a scheduler.
#![tactic(auto)]

pub mod bound;
pub mod excess;
pub mod loaded;
pub mod picks;
pub mod served;
pub mod windows;
