//! Where the moments of a pool come from.
ghost use Rattle.std.specs.Prelude.{◌≤◌, IfSome};
ghost use Rattle.aps_model.specs.Limits.{last_moment};

use aps_model::{CpuId, Nanos};
use std::sync::Wait;
use std::time::Clock;

/// The last moment that the live scheduler takes (ns).
pub const LAST_MOMENT: Nanos = 10_000_000_000_000;

/// The moments that the workers tell the live scheduler.
pub trait Pace {
    /// The moment (ns) at which the processor may be stepped next. It may wait for it. There is none once the run is over.
    fn moment<R: Wait + Clock>(&self, rt: &R, cpu: CpuId) -> Option<Nanos>
        ensures { IfSome result (λ now. now ≤ last_moment) };

    /// Told after each step at such a moment.
    fn stepped<R: Wait>(&self, rt: &R);

    /// Ends the run: from now on there is no moment.
    fn stop<R: Wait>(&self, rt: &R);
}
