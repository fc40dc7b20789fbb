//! The threads of a run as they go through their programs: the state, place, remaining time and stamp of each.
#![tactic(auto)]

pub mod laws;
mod operation;
mod plan;
mod programs;
mod start;
mod table;
mod task;
mod tasks;

pub use operation::place_after;
pub use programs::{op_at, policy_of};
pub use table::TaskTable;
pub use task::Task;
pub use tasks::Tasks;
