//! Messages between threads: who waits at which channel, and which server works for which client. Threads send, receive
//! and reply through `Channels`; no call after `new` takes memory, and none walks along what waits.
#![tactic(auto)]

mod channels;
mod lines;
mod links;
mod outcome;
mod serving;
mod waiting;

pub use channels::Channels;
pub use outcome::{Received, Replied, Sent};
