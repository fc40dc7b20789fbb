//! The elements that pictures are made of, as text in SVG. One unit is a tenth of a pixel, and all coordinates and sizes are
//! whole numbers; a picture is 14,000 units wide.
#![tactic(auto)]

pub mod axis;
pub mod columns;
pub mod element;
pub mod fill;
pub mod glyph;
pub mod number;
pub mod page;
mod sharing;
pub mod span;
pub mod step;

pub use columns::{Columns, Part};
pub use element::{Anchor, Area, Place};
pub use fill::{Edge, Fill};
pub use glyph::{Glyph, GlyphRow};
pub use sharing::share;
pub use span::Span;
