//! What legal histories keep whatever the load, in either order and of every scenario. Each law is the contract of a
//! function with an empty body. `moment` bounds what a partition uses in windows that begin inside a tick, `share` says
//! what a partition gets that has work, and `served` when a pick is of class 1; `passing` has what holds whenever time
//! passes, `response` how soon a thread of class 1 runs, and `operation` how long its operations take.
#![tactic(auto)]

pub mod moment;
pub mod operation;
pub mod passing;
pub mod response;
pub mod served;
pub mod share;
