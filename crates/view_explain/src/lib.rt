//! Why a thread of a recorded run runs at a moment, or doesn't.
#![tactic(auto)]

mod above;
mod again;
mod because;
mod chain;
mod deciding;
pub mod laws;
mod lines;
mod retracing;
mod scene;
mod text;
mod ties;
mod words;

pub use above::Above;
pub use because::Because;
pub use chain::explained;
pub use deciding::{Test, ahead};
pub use retracing::scene_at;
pub use scene::Scene;
pub use text::explain_text;
