//! The documented limits of a scenario, a run and a command, each in one place. `specs/Limits.antt` has the same numbers
//! for definitions and contracts, and `docs/FORMATS.md` says which refusal each has.

use crate::ids::Nanos;

/// The most processors of a run.
pub const MOST_CPUS: usize = 16;

/// The most partitions, `System` among them.
pub const MOST_PARTITIONS: usize = 32;

/// The most channels of a scenario.
pub const MOST_CHANNELS: usize = 256;

/// The most threads of a scenario.
pub const MOST_THREADS: usize = 1024;

/// The most operations of a program.
pub const MOST_OPERATIONS: usize = 256;

/// The most commands of a scenario.
pub const MOST_COMMANDS: usize = 1024;

/// The most bytes of a name.
pub const LONGEST_NAME: usize = 15;

/// The most entries that a history may be asked to hold.
pub const MOST_ENTRIES: u64 = 4_000_000;

/// The most ticks of a window.
pub const LONGEST_WINDOW: usize = 400;

/// The most ticks of a run.
pub const MOST_TICKS: u64 = 1_000_000;

/// The moment at which the longest run ends, in ns: the longest operation too.
pub const LAST_MOMENT: Nanos = 10_000_000_000_000;

/// The greatest critical budget, in ns: all processor time of the greatest window.
pub const MOST_CRITICAL: Nanos = 64_000_000_000;

/// The most bytes that a scenario is read to.
pub const MOST_SCENARIO_BYTES: usize = 1_048_576;

/// The most bytes that a journal is read to.
pub const MOST_JOURNAL_BYTES: usize = 310_000_000;

/// The greatest number of a processor. Processors, threads, partitions and channels are counted from 0.
pub const LAST_CPU: u64 = 15;

/// The greatest number of a thread.
pub const LAST_THREAD: u64 = 1023;

/// The greatest number of a partition.
pub const LAST_PARTITION: u64 = 31;

/// The greatest number of a channel.
pub const LAST_CHANNEL: u64 = 255;
