//! The lives of all threads of a history, made beside a core that makes its steps again.
ghost use Rattle.std.specs.Prelude.{◌≡◌, ◌≤◌, [], length, replicate, IfOk, OnOk};
ghost use Rattle.aps_model.specs.Legal.{IsLegal};
ghost use Rattle.aps_model.specs.Valid.{IsScenario};
ghost use Rattle.view_lives.specs.Life.{AreLives};
ghost use Rattle.aps_model.specs.Limits.{most_entries};

use crate::growing::GrowingLives;
use crate::life::Life;
use aps_core::Core;
use aps_model::{Entry, History, NoMemory, Order};
use std::alloc::Global;
use view_replay::{boot, retrace};

/// The life of each thread of the scenario, by its number, in one pass over the entries of a history that is legal in this
/// order of turns. `NoMemory` comes where memory runs out.
pub fn lives(alloc: Global, history: &History, order: Order) -> Result<Vec<Life>, NoMemory>
    requires legal { IsLegal history.now.scenario order history.now.entries }
    requires few { length history.now.entries ≤ most_entries }
    ensures { IfOk result (λ lives. AreLives history.now.scenario history.now.entries lives.items) }
{
    let count = history.scenario().threads().len();
    let mut lives = GrowingLives::unborn(alloc, count)?;
    grow(alloc, &mut lives, history, order)?;
    let lives = lives.into_lives()?;
    Ok(lives)
}

/// The lives that have not begun go on with all entries of a history that is legal in this order of turns.
fn grow(
    alloc: Global,
    lives: &mut GrowingLives,
    history: &History,
    order: Order,
) -> Result<(), NoMemory>
    requires legal { IsLegal history.now.scenario order history.now.entries }
    requires few { length history.now.entries ≤ most_entries }
    requires unborn { lives.old ≡ replicate (length history.now.scenario.threads) [] }
    ensures { OnOk result (AreLives history.now.scenario history.now.entries lives.new) }
{
    let mut core = boot(alloc, history, order)?;
    lengthen_all(lives, &mut core, history.entries())
}

/// The lives that have not begun go on with all entries, and the core makes their steps.
fn lengthen_all(
    lives: &mut GrowingLives,
    core: &mut Core,
    entries: &[Entry],
) -> Result<(), NoMemory>
    requires valid { IsScenario core.old.setup.scenario }
    requires begun { core.old.entries ≡ [] }
    requires legal { IsLegal core.old.setup.scenario core.old.setup.order entries.now }
    requires room { length entries.now ≤ core.old.setup.limit }
    requires unborn { lives.old ≡ replicate (length core.old.setup.scenario.threads) [] }
    ensures { OnOk result (AreLives core.old.setup.scenario entries.now lives.new) }
{
    let mut moment = 0;
    for e in entries {
        lives.lengthen(core, moment, e.to)?;
        moment = e.to;
        retrace(core, e);
    }
    Ok(())
}
