//! A recorded history for viewers of waves: a value change dump, and a save file that orders its signals.
#![tactic(auto)]

mod changes;
mod code;
mod dump;
mod dumping;
mod kind;
pub mod laws;
mod moments;
mod retracing;
mod save;
mod signals;
mod told;
mod value;

pub use dumping::vcd;
pub use save::gtkw;
