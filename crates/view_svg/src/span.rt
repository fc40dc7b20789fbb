//! The time that a picture shows.
ghost use Rattle.std.specs.Prelude.{◌≡◌, ◌+◌, ◌-◌, ◌<◌, ◌≤◌};
ghost use Rattle.view_svg.specs.Span.{shows_moment, last_shown, left_edge, meets, shown_width, shown_length, x_of};

use crate::sharing::share;
use aps_model::Nanos;

/// Where the time that is shown begins and ends on a picture, in units from the left.
pub const LEFT: u64 = 1400;

pub const PLOT: u64 = 12_000;

/// From one moment to a later one (ns), which are at most 100,000,000,000,000,000.
#[derive(Clone, Copy)]
pub struct Span {
    pub from: Nanos,
    pub to: Nanos,
    ghost some: { from < to },
    ghost early: { to ≤ last_shown },
}

impl Span {
    /// How long it is.
    pub fn length(&self) -> Nanos
        ensures same { result ≡ self.now.to - self.now.from }
        ensures some { 0 < result }
        ensures few { result ≤ last_shown }
    {
        self.to - self.from
    }

    /// Whether time from one moment to another meets the span.
    pub fn meets(&self, from: Nanos, to: Nanos) -> bool
        ensures { result ≡ meets self.now.from self.now.to from to }
    {
        self.from < to && from < self.to
    }

    /// Whether the span has this moment; its end is one of it too.
    pub fn has(&self, moment: Nanos) -> bool
        ensures { result ≡ shows_moment self.now.from self.now.to moment }
    {
        self.from <= moment && moment <= self.to
    }

    /// How much of the time from one moment to another lies in the span.
    pub fn within(&self, from: Nanos, to: Nanos) -> Nanos
        ensures { result ≡ shown_length self.now.from self.now.to from to }
    {
        to.min(self.to).saturating_sub(from.max(self.from))
    }

    /// Where a moment stands on the picture, in units from the left; one outside stands at the nearer end.
    pub fn x_of(&self, moment: Nanos) -> u64
        ensures same { result ≡ x_of self.now.from self.now.to moment }
        ensures least { left_edge ≤ result }
        ensures most { result ≤ left_edge + shown_width }
    {
        let shown = moment.max(self.from).min(self.to);
        LEFT + share(shown - self.from, PLOT, self.to - self.from)
    }
}
