//! What the upgrade of a scenario to parts per thousand changes in its runs: the numbers of budgets, and nothing else.
//! Each law is the contract of a function with an empty body.
#![tactic(auto)]

mod reply;
pub mod upgrade;

pub use reply::upgraded_reply;
