//! What admitted demands get: in a scenario whose partitions have the granted budgets, each need is met in every window
//! of the window bound in which nobody spends critical time.
//!
//! Each law is the contract of a function with an empty body.
#![tactic(auto)]

pub mod needs;
