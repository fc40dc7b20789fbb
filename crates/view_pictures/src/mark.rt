//! A mark of a strip.
ghost use Rattle.std.specs.Prelude.{◌≤◌};
ghost use Rattle.view_svg.specs.Span.{page_width};

/// A mark that is drawn: where, its place in its list, and how many of those behind it are left out.
#[derive(Clone, Copy)]
pub struct Mark {
    pub x: u64,
    pub place: usize,
    pub more: u64,
    ghost inside: { x ≤ page_width },
}
