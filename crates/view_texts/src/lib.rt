//! What the texts of reports share: a name as text, and a long text that is written to a sink piece by piece.
#![tactic(auto)]

mod fault;
mod name;
mod piece;

pub use fault::TraceFault;
pub use name::text_of;
pub use piece::{make_room, write_out};
