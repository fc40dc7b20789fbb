//! What pictures and traces of a recorded history are made of: the bars of its processors, the marks on them, the time that
//! partitions were without work, and the changes of rows, parameters and critical marks.
#![tactic(auto)]

mod alteration;
mod arrow;
mod bar;
mod drawn;
mod mark;
mod starved;
pub mod text;

pub use alteration::{Alteration, Altered};
pub use arrow::{Arrow, Carried, arrow_of};
pub use bar::{Bar, Lane};
pub use drawn::{Drawn, drawn_of};
pub use mark::{Message, flags, is_reply, message_of};
pub use starved::{Starved, all_starved};
