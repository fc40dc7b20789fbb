//! The audit of a history: by how much its loaded windows exceed their budgets, fall short of them, and exceed their
//! critical budgets. A loaded window is one of whole, finished ticks since the last change and the last pick with a
//! starved partition.
#![tactic(auto)]

mod allowed;
mod audited;
mod cursor;
mod finished;
mod limits;
mod loaded;
mod order;
mod recount;
mod slide;
mod usage;
mod window;
mod worst;

pub use audited::audit;
