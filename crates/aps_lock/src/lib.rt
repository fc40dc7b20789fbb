//! One run for many threads: a dispatcher keeps a core under a lock by tickets, and its seats take the turns of some
//! processors each. Nothing that a seat has seen is lost, and nothing comes of its processors but by the seat.
//! The threads that drive the seats stand above.
#![tactic(auto)]

mod bell;
mod cpu_set;
mod dispatch;
mod hint;
pub mod laws;
mod rule;
mod seat;
mod step;
mod turns;

pub use dispatch::Dispatch;
pub use seat::CpuSeat;
