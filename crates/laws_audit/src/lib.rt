//! What the audit finds of every legal history.
//!
//! Each law is the contract of a function with an empty body.
#![tactic(auto)]

pub mod order;
