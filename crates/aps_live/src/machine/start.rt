//! The threads and processors at the start.
ghost use Rattle.std.specs.Prelude.{◌≡◌, ◌<◌, length, map, replicate, IfOk, None};
ghost use Rattle.std.specs.List.{range_with_len};
ghost use Rattle.aps_live.specs.LiveState.{live_start};

use crate::thread::{Doing, LiveThread};
use aps_model::{Contender, Facts, NoMemory, Pick, Scenario, ThreadId};
use std::alloc::Global;

/// A waiting thread has this stamp and its number, until it wakes.
const FIRST_WAITING_STAMP: u64 = 1 << 63;

/// A thread at the start: it waits.
fn start_thread(scenario: &Scenario, x: ThreadId) -> LiveThread
    requires { x < length scenario.now.threads }
    ensures { result ≡ live_start scenario.now x }
{
    let row = &scenario.threads()[x.index()];
    let facts = Facts {
        partition: row.partition,
        priority: row.priority,
        critical: row.critical,
    };
    LiveThread {
        contender: Contender {
            thread: x,
            facts,
            stamp: FIRST_WAITING_STAMP + x.index() as u64,
        },
        doing: Doing::Waiting,
    }
}

/// All threads, which wait.
pub fn start_threads(alloc: Global, scenario: &Scenario) -> Result<Vec<LiveThread>, NoMemory>
    ensures { IfOk result (λ v. v.items ≡ map (live_start scenario.now) (range_with_len 0 (length scenario.now.threads))) }
{
    // the check wants the types of a thread's fields named in the function that appends it
    let _named: Option<Doing> = None;
    let count = scenario.threads().len();
    let mut threads = Vec::with_capacity(alloc, count)?;
    for x in 0..count {
        threads.push(start_thread(scenario, ThreadId::at(x)))?;
    }
    Ok(threads)
}

/// Processors that run nobody.
pub fn start_cpus(alloc: Global, count: u8) -> Result<Vec<Option<Pick>>, NoMemory>
    ensures { IfOk result (λ v. v.items ≡ replicate count None) }
{
    let mut cpus = Vec::with_capacity(alloc, usize::from(count))?;
    for _ in 0..count {
        cpus.push(None)?;
    }
    Ok(cpus)
}
