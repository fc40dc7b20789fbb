//! A core that makes the steps of a recorded history again.
ghost use Rattle.std.specs.Prelude.{◌≡◌, ◌≤◌, IfOk, length, take};
ghost use Rattle.aps_model.specs.After.{state_after};
ghost use Rattle.aps_model.specs.Legal.{IsLegal};
ghost use Rattle.aps_model.specs.Limits.{most_entries, most_partitions};
ghost use Rattle.aps_model.specs.Valid.{IsScenario};
ghost use Rattle.aps_core.specs.Run.{state_of_run};
ghost use Rattle.aps_core.specs.Turn.{IsTurnTaken, with_entry};
ghost use Rattle.view_replay.specs.Retraced.{start_of};

use aps_core::Core;
use aps_model::{Entry, History, NoMemory, Order, PartitionRow};
use std::alloc::Global;

/// A core that has made no step of the history's scenario, with room for all its entries. `NoMemory` comes where memory runs out.
pub fn boot(alloc: Global, history: &History, order: Order) -> Result<Core, NoMemory>
    requires { length history.now.entries ≤ most_entries }
    ensures same { IfOk result (λ core. core ≡ start_of history.now order) }
    ensures few { IfOk result (λ core. core.setup.limit ≤ most_entries) }
    ensures valid { IfOk result (λ core. IsScenario history.now.scenario) }
{
    // the check wants the scenario's own word that it is valid
    let _shape = history.scenario().shape();
    let scenario = history.scenario().copy(alloc)?;
    let limit = (history.entries().len() as u32).max(1);
    Core::boot(alloc, scenario, order, limit)
}

/// The core makes the step of which this is the entry.
pub fn retrace(core: &mut Core, e: &Entry)
    requires { IsTurnTaken core.old e.now.cpu e.now }
    ensures { core.new ≡ with_entry core.old e.now }
{
    // the check wants to see here that the core's entries are legal
    let _history = core.history();
    let _turn = core.step(e.cpu);
}

/// The core, which has made the steps of so many entries, makes those of the others.
pub fn retrace_rest(core: &mut Core, entries: &[Entry], done: usize)
    requires done { core.old.entries ≡ take done entries.now }
    requires place { done ≤ length entries.now }
    requires legal { IsLegal core.old.setup.scenario core.old.setup.order entries.now }
    requires few { length entries.now ≤ core.old.setup.limit }
    ensures { core.new ≡ record core.old { entries = entries.now } }
{
    for i in done..entries.len() {
        retrace(core, &entries[i]);
    }
}

/// A copy of the partition rows that stand. `NoMemory` comes where memory runs out.
pub fn rows_of(alloc: Global, core: &Core) -> Result<Vec<PartitionRow>, NoMemory>
    ensures same { IfOk result (λ rows. rows.items ≡ (state_of_run core.now).rows) }
    ensures few { IfOk result (λ rows. length rows.items ≤ most_partitions) }
{
    let mut rows = Vec::new(alloc);
    rows.extend_from_slice(core.history().rows())?;
    Ok(rows)
}

/// The partition rows that the entries of a history leave, which is legal in this order of turns. `NoMemory` comes where
/// memory runs out.
pub fn rows_after(
    alloc: Global,
    history: &History,
    order: Order,
) -> Result<Vec<PartitionRow>, NoMemory>
    requires legal { IsLegal history.now.scenario order history.now.entries }
    requires few { length history.now.entries ≤ most_entries }
    ensures same { IfOk result (λ rows. rows.items ≡ (state_after history.now.scenario history.now.entries).rows) }
    ensures few { IfOk result (λ rows. length rows.items ≤ most_partitions) }
{
    let mut core = boot(alloc, history, order)?;
    retrace_rest(&mut core, history.entries(), 0);
    rows_of(alloc, &core)
}
