//! How much of a run every processor has billed, found from the end of its history.
ghost use Rattle.std.specs.Prelude.{◌≡◌, ◌≤◌, All, min};
ghost use Rattle.aps_model.specs.Due.{last_end};
ghost use Rattle.aps_model.specs.History.{IsEntry};
ghost use Rattle.aps_model.specs.Limits.{last_moment, last_tick};
ghost use Rattle.aps_model.specs.Loaded.{finished_ticks};
ghost use Rattle.aps_model.specs.Shape.{IsShape};

use aps_model::{Entry, Nanos, Shape};

/// The number of whole ticks that every processor has billed, by the shape's tick and number of processors. The cost is
/// that of a look, for each processor, at the entries from the end of the history back to the processor's last one.
pub fn finished_ticks(shape: &Shape, entries: &[Entry]) -> u64
    requires shape { IsShape shape.now }
    requires entries { All IsEntry entries.now }
    ensures same { result ≡ finished_ticks shape.now entries.now }
    ensures few { result ≤ last_tick }
{
    let mut least = last_end(entries, 0);
    for cpu in 0..usize::from(shape.cpus) {
        least = earlier(least, last_end(entries, cpu));
    }
    least / shape.tick
}

fn earlier(a: Nanos, b: Nanos) -> Nanos
    ensures { result ≡ min a b }
{
    a.min(b)
}

/// Where the last entry of the processor of this number ended, or 0 where it has none.
fn last_end(entries: &[Entry], cpu: usize) -> Nanos
    requires { All IsEntry entries.now }
    ensures same { result ≡ last_end entries.now cpu }
    ensures early { result ≤ last_moment }
{
    let mut left = entries.len();
    while left > 0 {
        left -= 1;
        if entries[left].cpu.index() == cpu {
            return entries[left].to;
        }
    }
    0
}
