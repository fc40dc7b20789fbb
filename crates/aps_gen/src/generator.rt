//! A generated scenario as a whole.
ghost use Rattle.std.specs.Prelude.{◌≡◌, ◌≤◌, IfOk};
ghost use Rattle.aps_gen.specs.Generated.{generated};
ghost use Rattle.aps_model.specs.Limits.{most_cpus, most_partitions, most_ticks};

use crate::partitions::partition_rows;
use crate::threads::thread_rows;
use aps_model::{Bankruptcy, Free, Name, NoMemory, Scenario, Shape};
use std::alloc::Global;

/// The scenario that this seed, any number, gives for 1 to 16 processors, 1 to 32 partitions (the
/// root counts) and 1 to 1,000,000 ticks: docs/FORMATS.md, "Generated scenarios".
///
/// In each partition stand an endless thread for each processor and a worker that runs and sleeps
/// by turns, and in each but the root a client of the one server. Priorities, policies and times
/// are drawn from the seed. The same numbers give the same scenario. `NoMemory` comes where memory
/// runs out.
pub fn generate(
    alloc: Global,
    seed: u64,
    cpus: u8,
    partitions: u8,
    ticks: u32,
) -> Result<Scenario, NoMemory>
    requires some_cpu { 1 ≤ cpus }
    requires few_cpus { cpus ≤ most_cpus }
    requires some_partition { 1 ≤ partitions }
    requires few_partitions { partitions ≤ most_partitions }
    requires some_tick { 1 ≤ ticks }
    requires few_ticks { ticks ≤ most_ticks }
    ensures { IfOk result (λ scenario. scenario ≡ generated seed cpus partitions ticks) }
{
    let shape = Shape {
        parts: 100,
        cpus,
        tick: 1_000_000,
        window: 100,
        ticks,
        call_ns: 1000,
        free: Free::Priority,
        limit: false,
        bankruptcy: Bankruptcy::Basic,
    };
    let rows = partition_rows(alloc, partitions)?;
    let Ok(channel) = Name::new(b"c") else {
        unreachable!()
    };
    let channels = vec![in alloc; channel]?;
    let threads = thread_rows(alloc, seed, cpus, partitions)?;
    Ok(Scenario::new(shape, rows, channels, threads, Vec::new(alloc)))
}
