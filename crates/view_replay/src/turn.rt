//! The step of who has the turn.
ghost use Rattle.std.specs.Prelude.{◌≡◌, ◌<◌, ◌++◌, [], ◌∷◌, length, None};
ghost use Rattle.aps_model.specs.Due.{due};
ghost use Rattle.aps_model.specs.History.{IsEntry};
ghost use Rattle.aps_model.specs.Legal.{IsLegal};
ghost use Rattle.aps_core.specs.Run.{end_of_run, state_of_run};
ghost use Rattle.aps_core.specs.Turn.{HasTurnIn, with_entry};
ghost use Rattle.view_replay.specs.Entry.{entry_of};

use aps_core::{Core, Turn};
use aps_model::{CpuId, Entry};

/// The step of a processor that has the turn, in a run that goes on: its entry, which ends when the processor was due.
pub fn take_turn(core: &mut Core, cpu: CpuId) -> Entry
    requires goes_on { end_of_run core.old ≡ None }
    requires turn { HasTurnIn core.old cpu }
    ensures same { result ≡ entry_of core.old cpu }
    ensures run { core.new ≡ with_entry core.old result }
    ensures legal { IsLegal core.old.setup.scenario core.old.setup.order (core.old.entries ++ result ∷ []) }
    ensures to { result.to ≡ due (state_of_run core.old) core.old.entries cpu }
    ensures entry { IsEntry result }
    ensures room { length core.old.entries < core.old.setup.limit }
{
    // the check wants to see here that the scenario is a valid one, and that there is room for the entries
    let _entries = core.history().entries();
    match core.step(cpu) {
        Turn::Took(e) => e,
        _ => unreachable!(),
    }
}
