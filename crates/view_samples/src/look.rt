//! What is seen at a pick.
ghost use Rattle.std.specs.Prelude.{◌≡◌, ℕ, ◌<◌, ◌++◌, List, [], ◌∷◌, ◌||◌, length, slice_index_or, false, true, not, nat_le};
ghost use Rattle.aps_model.specs.declared.entry.Entry.{Entry};
ghost use Rattle.aps_model.specs.Budget.{no_part, part_at};
ghost use Rattle.aps_model.specs.Limits.{most_partitions};
ghost use Rattle.aps_model.specs.Pick.{contenders};
ghost use Rattle.aps_model.specs.SchedulerState.{cpu_at};
ghost use Rattle.aps_core.specs.Run.{state_of_run};
ghost use Rattle.aps_core.specs.Scan.{has_candidate};
ghost use Rattle.laws_load.specs.Passing.{parts_now};
ghost use Rattle.view_samples.specs.Look.{EachHad, IsLookAtEntry, TellsOfNobody, have_budgets};
ghost use Rattle.view_samples.specs.Picks.{bills, had_candidate, is_unfunded};

use crate::truth::nor;
use aps_core::Core;
use aps_model::limits::MOST_PARTITIONS;
use aps_model::{CpuId, Entry, PartFacts, Pick};

/// Of a pick: which partitions had no candidate, which weren't in budget, whether one was starved, whether the step made a
/// change, and whether the pick was free, that is, of a thread of class 0.
#[derive(Clone, Copy)]
pub struct Look {
    pub lacking: [bool; MOST_PARTITIONS],
    pub out: [bool; MOST_PARTITIONS],
    pub starved: bool,
    pub changed: bool,
    pub free: bool,
}

impl Look {
    /// The look at the pick that the core made last, which is this entry's. So many changes stood before the step.
    pub fn at(core: &Core, e: &Entry, changes: usize) -> Look
        requires last { (before : List Entry) × (core.now.entries ≡ before ++ e.now ∷ []) }
        ensures { IsLookAtEntry (state_of_run core.now) core.now.entries changes e.now result }
    {
        let history = core.history();
        let count = history.rows().len();
        let mut room = [no_part(); MOST_PARTITIONS];
        core.stand(&mut room[..count]);
        let parts = &room[..count];
        Look {
            lacking: lacking(core, parts, e),
            out: unfunded(parts),
            starved: e.starved.is_some(),
            changed: changes < history.changes().len(),
            free: is_free(core, parts, e),
        }
    }
}

/// What is read where there is no partition.
fn no_part() -> PartFacts
    ensures { result ≡ no_part }
{
    PartFacts {
        funded: false,
        standing: false,
        shut: true,
        used: 0,
        budget: 0,
    }
}

/// Which partitions had no candidate at the last pick, which was this entry's, where they stand so. Where each has a budget,
/// somebody was picked and nobody is starved, each had one.
fn lacking(core: &Core, parts: &[PartFacts], e: &Entry) -> [bool; 32]
    requires last { (before : List Entry) × (core.now.entries ≡ before ++ e.now ∷ []) }
    requires parts { parts.now ≡ parts_now (state_of_run core.now) core.now.entries }
    ensures { (p : ℕ) → p < most_partitions
        → slice_index_or result p false ≡ not (had_candidate (state_of_run core.now) core.now.entries e.now.cpu p) }
{
    // the check wants to see here that the entries of the core are legal
    let _history = core.history();
    if each_had(parts, e) {
        return from_on(parts.len());
    }
    found_lacking(core, parts, e.cpu)
}

/// Whether each partition had a candidate at the pick of this entry, as far as the entry tells it.
fn each_had(parts: &[PartFacts], e: &Entry) -> bool
    ensures { result ≡ true → EachHad parts.now e.now }
{
    is_pick_without_starved(e) && have_budgets(parts)
}

/// Whether somebody was picked and nobody is starved.
fn is_pick_without_starved(e: &Entry) -> bool
    ensures { result ≡ true → TellsOfNobody e.now }
{
    match (e.picked, e.starved) {
        (Some(_), None) => true,
        _ => false,
    }
}

/// Whether each partition has a budget.
fn have_budgets(parts: &[PartFacts]) -> bool
    ensures { result ≡ have_budgets parts.now }
{
    parts.iter().all(|part| part.budget > 0)
}

/// The partitions with this number and later ones.
fn from_on(first: usize) -> [bool; 32]
    ensures { (p : ℕ) → p < most_partitions → slice_index_or result p false ≡ nat_le first p }
{
    let mut all = [false; MOST_PARTITIONS];
    for p in 0..MOST_PARTITIONS {
        all[p] = first <= p;
    }
    all
}

/// Which partitions had no candidate at the last pick, which was the processor's, where they stand so: in one pass over the threads.
fn found_lacking(core: &Core, parts: &[PartFacts], c: CpuId) -> [bool; 32]
    ensures { (p : ℕ)
        → p < most_partitions
        → slice_index_or result p false
        ≡ not (bills (cpu_at (state_of_run core.now) c).running p || has_candidate parts.now p (contenders (state_of_run core.now))) }
{
    let ready = core.candidates(parts);
    let cpu = core.cpu(c);
    neither(&cpu.running, &ready)
}

/// Which partitions are neither billed by the pick nor among these.
fn neither(pick: &Option<Pick>, others: &[bool; 32]) -> [bool; 32]
    ensures { (p : ℕ) → p < most_partitions → slice_index_or result p false ≡ not (bills pick.now p || slice_index_or others.now p false) }
{
    let mut all = [false; MOST_PARTITIONS];
    for p in 0..MOST_PARTITIONS {
        all[p] = nor(bills(pick, p), others[p]);
    }
    all
}

/// Whether the pick bills this partition.
fn bills(pick: &Option<Pick>, p: usize) -> bool
    ensures { result ≡ bills pick.now p }
{
    match pick {
        Some(pick) => pick.partition.index() == p,
        None => false,
    }
}

/// Which partitions aren't in budget, where they stand so.
fn unfunded(parts: &[PartFacts]) -> [bool; 32]
    ensures { (p : ℕ) → p < most_partitions → slice_index_or result p false ≡ not (part_at parts.now p).funded }
{
    let mut all = [false; MOST_PARTITIONS];
    for p in 0..MOST_PARTITIONS {
        all[p] = !is_funded(parts, p);
    }
    all
}

fn is_funded(parts: &[PartFacts], p: usize) -> bool
    ensures { result ≡ (part_at parts.now p).funded }
{
    match parts.get(p) {
        Some(part) => part.funded,
        None => false,
    }
}

/// Whether the entry's pick, which was the core's last one, was free.
fn is_free(core: &Core, parts: &[PartFacts], e: &Entry) -> bool
    ensures { result ≡ is_unfunded parts.now e.now.picked (cpu_at (state_of_run core.now) e.now.cpu).running }
{
    let cpu = core.cpu(e.cpu);
    match (e.picked, cpu.running) {
        (Some(_), Some(pick)) => !is_funded(parts, pick.partition.index()) && !pick.critical,
        _ => false,
    }
}
