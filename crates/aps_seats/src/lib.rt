//! A core that many threads step, one at a time, under a lock by tickets. Each thread has a seat, the right to step some
//! processors. A seat sees the run as it was at some moment; what has come since is of processors of other seats.
//! The core is any value whose run is read by a `Recorded`.
#![tactic(auto)]

mod recorded;
mod rule;
mod seats;
mod turn;
mod view;

pub use recorded::Recorded;
pub use rule::{CutAt, Place, SeatTable, SharedCore};
pub use seats::{begin, cut, end, load_len, merge, witness};
pub use turn::{CORE, enter, leave};
