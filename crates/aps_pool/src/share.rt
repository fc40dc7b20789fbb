//! What a history says of each partition and of each worker.
ghost use Rattle.std.specs.Prelude.{◌≡◌, ◌*◌, ◌/◌, ◌≤◌, min};
ghost use Rattle.aps_model.specs.Limits.{greatest_u64, percent};
ghost use Rattle.aps_pool.specs.Share.{time_billed, billed_to, lasts, step_with, steps_with, time_of_entries};

use aps_model::{Entry, Nanos, PartitionId, ThreadId};

/// How long the entry lasts (ns).
fn lasts(e: &Entry) -> Nanos
    ensures { result ≡ lasts e.now }
{
    e.to.saturating_sub(e.from)
}

/// What the entry bills to the partition (ns).
fn billed_to(e: &Entry, partition: PartitionId) -> Nanos
    ensures { result ≡ billed_to partition e.now }
{
    match e.billed {
        Some(p) if p.index() == partition.index() => lasts(e),
        _ => 0,
    }
}

/// 1 where the thread ran in the entry, for longer than no time, else 0.
fn step_with(e: &Entry, thread: ThreadId) -> u64
    ensures { result ≡ step_with thread e.now }
{
    match e.ran {
        Some(x) if x.index() == thread.index() && e.from < e.to => 1,
        _ => 0,
    }
}

/// How long these entries last together (ns), or 2^64 - 1 where that is more.
pub fn told_ns(entries: &[Entry]) -> Nanos
    ensures { result ≡ min (time_of_entries entries.now) greatest_u64 }
{
    let mut sum: Nanos = 0;
    for e in entries {
        sum = sum.saturating_add(lasts(e));
    }
    sum
}

/// What these entries bill to the partition (ns), or 2^64 - 1 where that is more.
pub fn billed_ns(entries: &[Entry], partition: PartitionId) -> Nanos
    ensures { result ≡ min (time_billed partition entries.now) greatest_u64 }
{
    let mut sum: Nanos = 0;
    for e in entries {
        sum = sum.saturating_add(billed_to(e, partition));
    }
    sum
}

/// How many of these entries the thread ran in, for longer than no time, or 2^64 - 1 where that is more.
pub fn steps_of(entries: &[Entry], thread: ThreadId) -> u64
    ensures { result ≡ min (steps_with thread entries.now) greatest_u64 }
{
    let mut count: u64 = 0;
    for e in entries {
        count = count.saturating_add(step_with(e, thread));
    }
    count
}

/// So many parts of 100 of the time (ns), rounded down.
pub fn due_ns(time: Nanos, parts: u8) -> Nanos
    requires { parts ≤ percent }
    ensures { result ≡ time * parts / percent }
{
    (u128::from(time) * u128::from(parts) / 100) as u64
}
