//! A core that makes the steps of a recorded history again, up to a moment.
ghost use Rattle.std.specs.Prelude.{◌≡◌, ◌≤◌, [], length, IfOk};
ghost use Rattle.aps_model.specs.After.{state_after};
ghost use Rattle.aps_model.specs.Legal.{IsLegal};
ghost use Rattle.view_pictures.specs.Scene.{IsStandingAfter, up_to};
ghost use Rattle.aps_model.specs.Limits.{most_entries};

use aps_core::Core;
use aps_model::{Entry, History, Nanos, NoMemory, Order, PartitionRow};
use std::alloc::Global;
use view_replay::{boot, retrace, rows_of};

/// The partition rows and the window (ticks) as they stand at some moment.
#[derive(Drop)]
pub struct Standing {
    pub rows: Vec<PartitionRow>,
    pub window: u16,
}

/// What stands after the first entry that ends at this moment or later, or after the last one; of a history that is legal in
/// this order of turns. `NoMemory` comes where memory runs out.
pub fn standing_at(
    alloc: Global,
    history: &History,
    order: Order,
    moment: Nanos,
) -> Result<Standing, NoMemory>
    requires legal { IsLegal history.now.scenario order history.now.entries }
    requires few { length history.now.entries ≤ most_entries }
    ensures { IfOk result (IsStandingAfter history.now moment) }
{
    let mut core = boot(alloc, history, order)?;
    retrace_to(&mut core, history.entries(), moment);
    standing_of(alloc, &core)
}

/// What stands as the core has it.
fn standing_of(alloc: Global, core: &Core) -> Result<Standing, NoMemory>
    ensures rows { IfOk result (λ s. s.rows.items ≡ (state_after core.now.setup.scenario core.now.entries).rows) }
    ensures window { IfOk result (λ s. s.window ≡ (state_after core.now.setup.scenario core.now.entries).shape.window) }
{
    let rows = rows_of(alloc, core)?;
    let window = core.history().shape().window;
    Ok(Standing { rows, window })
}

/// The core, which has made no step, makes those of these entries up to the first that ends at this moment or later.
fn retrace_to(core: &mut Core, entries: &[Entry], moment: Nanos)
    requires begins { core.old.entries ≡ [] }
    requires legal { IsLegal core.old.setup.scenario core.old.setup.order entries.now }
    requires few { length entries.now ≤ core.old.setup.limit }
    ensures { core.new ≡ record core.old { entries = up_to moment entries.now } }
{
    for e in entries {
        retrace(core, e);
        if moment <= e.to {
            return;
        }
    }
}
