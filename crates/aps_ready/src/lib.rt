//! The ready threads, and the greatest candidate among them. `Ready` keeps a list for each priority, partition and mark, in order
//! of stamps, so that most calls take a few steps; `Gates` keeps which partitions' threads are candidates.
#![tactic(auto)]

mod ahead;
mod entrant;
mod gates;
mod leaders;
mod lists;
mod look;
mod parts;
mod ready;
mod ring;
mod table;

pub use ahead::Ahead;
pub use gates::Gates;
pub use ready::{Drawn, Ready};
