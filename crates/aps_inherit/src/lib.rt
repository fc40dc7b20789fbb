//! The values that threads inherit from the clients they serve, kept beside each thread.
#![tactic(auto)]

mod content;
mod inherit;
mod kept;
mod order;
mod triple;
mod triples;

pub use inherit::Inherit;
