//! Pictures of a recorded history: what its processors ran, what its threads did, and what its partitions used.
#![tactic(auto)]

mod bar;
mod group;
mod lane;
pub mod laws;
mod legend;
mod life;
mod mark;
mod panel;
mod retracing;
mod scale;
mod scene;
mod shown;
mod strip;
mod survey;
mod threads;
mod timeline;
mod tip;
mod titles;
mod usage;

pub use scene::Scene;
pub use threads::threads_text;
pub use timeline::timeline_text;
pub use usage::usage_text;
pub use view_samples::table::Ticks;
