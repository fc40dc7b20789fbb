//! How much of a run every processor has billed.
ghost use Rattle.std.specs.Prelude.{◌≡◌, ℕ, ◌<◌, ◌≤◌, All, min, slice_index};
ghost use Rattle.aps_model.specs.History.{IsEntry};
ghost use Rattle.aps_model.specs.Shape.{IsShape};
ghost use Rattle.aps_model.specs.Due.{last_end};
ghost use Rattle.aps_model.specs.Loaded.{finished_ticks};
ghost use Rattle.aps_model.specs.Limits.{last_moment, last_tick, most_cpus};

use crate::entry::Entry;
use crate::ids::Nanos;
use crate::limits::MOST_CPUS;
use crate::shape::Shape;

/// The number of whole ticks that every processor has billed, by the shape's tick and number of processors. See
/// `docs/DEFINITIONS.md`, Finished.
pub fn finished_ticks(shape: &Shape, entries: &[Entry]) -> u64
    requires shape { IsShape shape.now }
    requires entries { All IsEntry entries.now }
    ensures same { result ≡ finished_ticks shape.now entries.now }
    ensures few { result ≤ last_tick }
{
    let ends = last_ends(entries);
    let mut least = ends[0];
    for cpu in 0..usize::from(shape.cpus) {
        least = earlier(least, ends[cpu]);
    }
    least / shape.tick
}

fn earlier(a: Nanos, b: Nanos) -> Nanos
    ensures { result ≡ min a b }
{
    a.min(b)
}

/// Where the last entry of each processor ended, or 0 where it has none.
fn last_ends(entries: &[Entry]) -> [Nanos; MOST_CPUS]
    requires { All IsEntry entries.now }
    ensures same { (c : ℕ) → c < most_cpus → slice_index result c ≡ last_end entries.now c }
    ensures early { All (λ end. end ≤ last_moment) result }
{
    let mut ends = [0; MOST_CPUS];
    for e in entries {
        ends[e.cpu.index()] = e.to;
    }
    ends
}
