//! What threads wait for, by a recorded history: to run, and for the servers that they call.
#![tactic(auto)]

mod answered;
mod billing;
mod call;
mod callers;
mod calling;
mod following;
mod latency;
pub mod laws;
mod lines;
mod news;
mod seen;

pub use answered::Answered;
pub use billing::bills;
pub use call::{Asked, Call, Calls};
pub use following::{Followed, calls, follow_all, follow_run};
pub use latency::{latency_text, latency_text_of};
pub use news::{News, news_of};
