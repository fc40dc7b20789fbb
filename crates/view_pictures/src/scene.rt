//! What all pictures of a span of a history show.
ghost use Rattle.std.specs.Prelude.{◌<◌, ◌≤◌, length};
ghost use Rattle.aps_model.specs.Limits.{most_cpus, most_partitions};

pub use crate::retracing::Standing;
use aps_model::{Nanos, PartitionRow, Usage};
use view_svg::Span;

/// The ticks that are shown: from one to before another.
#[derive(Clone, Copy)]
pub struct Stretch {
    pub from: u64,
    pub to: u64,
    ghost some: { from < to },
    ghost few: { to ≤ 4294967296 },
}

/// Which ticks and which time are shown, the sizes of the run, the rows that stand last, what stood in the last tick that is
/// shown, and what each partition used in this time (ns).
#[derive(Drop)]
pub struct Scene {
    pub stretch: Stretch,
    pub span: Span,
    pub cpus: u8,
    pub tick: Nanos,
    pub parts: u16,
    pub rows: Vec<PartitionRow>,
    pub standing: Standing,
    pub usage: Usage,
    ghost few_cpus: { cpus ≤ most_cpus },
    ghost few_rows: { length rows.items ≤ most_partitions },
}
