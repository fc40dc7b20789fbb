//! A scheduler for programs with a clock of their own: each caller steps a processor at a moment that it brings, and tells
//! what became of the thread that ran. Intervals may cross ticks, and may be long.
#![tactic(auto)]

mod append;
mod bills;
mod event;
mod history;
pub mod laws;
mod live;
mod live_core;
mod machine;
mod pick;
mod rule;
mod seat;
mod step;
mod thread;
mod turn;

pub use event::LiveEvent;
pub use history::LiveHistory;
pub use live::Live;
pub use seat::LiveSeat;
pub use turn::LiveTurn;
