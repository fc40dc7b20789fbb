//! Samples of a recorded history: what is told of the window that ends with each finished tick. One pass over the entries
//! gives one sample after the other. And the texts that are made of them.
#![tactic(auto)]

mod lasts;
mod look;
mod note;
mod overspent;
mod pass;
mod sample;
mod sums;
pub mod table;
mod truth;

pub use overspent::Overspent;
pub use pass::Samples;
pub use sample::Sample;
