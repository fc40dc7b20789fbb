//! What each thread ran on the bill of each partition.
ghost use Rattle.std.specs.Prelude.{◌≡◌, ◌≤◌, ◌-◌, All, length, replicate, IfOk};
ghost use Rattle.aps_model.specs.History.{IsEntry};
ghost use Rattle.aps_model.specs.Limits.{greatest_u32, most_threads};
ghost use Rattle.view_latency.specs.Bills as spec;

use aps_model::limits::{MOST_PARTITIONS, MOST_THREADS};
use aps_model::{Entry, NoMemory, Usage};
use std::alloc::Global;

/// What each thread ran on the bill of each partition, and what of that was critical (ns), in one pass over these entries. There is
/// a place for each number that a thread can have. `NoMemory` comes where memory runs out.
pub fn bills(alloc: Global, entries: &[Entry]) -> Result<Vec<Usage>, NoMemory>
    requires entries { All IsEntry entries.now }
    requires few { length entries.now ≤ greatest_u32 }
    ensures { IfOk result (λ bills. spec.AreBills entries.now bills.items) }
{
    let mut bills = nothing(alloc)?;
    for e in entries {
        add(&mut bills, e);
    }
    Ok(bills)
}

/// Of each thread, that it ran on nobody's bill.
fn nothing(alloc: Global) -> Result<Vec<Usage>, NoMemory>
    ensures { IfOk result (λ bills. bills.items ≡ replicate most_threads spec.no_bills) }
{
    let mut bills = Vec::with_capacity(alloc, MOST_THREADS)?;
    for _ in 0..MOST_THREADS {
        bills.push(no_bills())?;
    }
    Ok(bills)
}

/// Nothing on any bill.
fn no_bills() -> Usage
    ensures { result ≡ spec.no_bills }
{
    Usage {
        used: [0; MOST_PARTITIONS],
        critical: [0; MOST_PARTITIONS],
    }
}

/// What the entry bills is added to its thread's.
fn add(bills: &mut Vec<Usage>, e: &Entry)
    requires entry { IsEntry e.now }
    requires room { spec.BillsHaveRoom bills.old.items }
    ensures { spec.AreBilled bills.old.items e.now bills.new.items }
{
    if let Some(x) = e.ran {
        bills[x.index()].bill(e, e.to - e.from);
    }
}
