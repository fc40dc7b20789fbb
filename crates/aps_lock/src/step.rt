//! One step of the core under the lock.
ghost use Rattle.std.specs.Prelude.{◌≡◌, ◌<◌, ◌≤◌, [], ◌∷◌, Some, true, length};
ghost use Rattle.aps_core.specs.Run.{Run};
ghost use Rattle.aps_core.specs.Turn.{IsOwnEntry, IsTurn, after_turn};
ghost use Rattle.aps_lock.specs.RunLog.{run_log};
ghost use Rattle.aps_seats.specs.Rule.{IsFor};
ghost use Rattle.aps_seats.specs.Seen.{IsSeenIn};
ghost use Rattle.aps_seats.specs.declared.view.Ticket.TheVariants.{NoTicket};

use crate::hint::Hint;
use crate::rule::{CoreLock, CorePlace};
use crate::turns::Turns;
use aps_core::{Core, Turn};
use aps_model::CpuId;
use aps_seats::{CORE, enter, leave};
use std::sync::Wait;

/// How many entries the core has.
pub(crate) fn len_of(core: &Core) -> u64
    ensures { result ≡ length core.now.entries }
{
    core.history().entries().len() as u64
}

/// Steps the core, which stays in its slot. The answer has the turn, how many entries the core has then, and who steps next.
fn step_core(
    shared: &CoreLock,
    place: &mut CorePlace,
    hint: &Hint,
    cpu: CpuId,
) -> (Turn, u64, Turns)
    requires table { IsFor shared.now.table_id place.old.table_id }
    requires held { (run : Run) × (place.old.me.1 ≡ (0, Some run) ∷ []) × (cpu < run.setup.scenario.shape.cpus) }
    ensures table { place.new.table_id ≡ place.old.table_id }
    ensures held { (run : Run) × (place.old.me.1 ≡ (0, Some run) ∷ []) × IsTurn run cpu result.0
        × (place.new.me ≡ (place.old.me.0, (0, Some (after_turn run result.0)) ∷ []))
        × (result.1 ≡ length (after_turn run result.0).entries) }
    ensures own { IsOwnEntry cpu result.0 }
{
    let Some(core) = place.slot_mut(shared, CORE) else {
        unreachable!()
    };
    let turn = core.step(cpu);
    let len = len_of(core);
    let turns = hint.turns_after(core);
    (turn, len, turns)
}

/// One step of the processor, from the ticket to the release, after which the next turns are told. The second of the
/// answer is the number of entries then.
pub(crate) fn turn_place<R: Wait>(
    rt: &R,
    shared: &CoreLock,
    hint: &Hint,
    place: &mut CorePlace,
    cpu: CpuId,
) -> (Turn, u64)
    requires table { IsFor shared.now.table_id place.old.table_id }
    requires seat { (place.old.me.0.live ≡ true) × (place.old.me.0.ticket ≡ NoTicket) × (place.old.me.1 ≡ []) }
    requires cpu { (place.old.me.0.first ≤ cpu) × (cpu < place.old.me.0.after)
        × (place.old.me.0.after ≤ place.old.me.0.seen.setup.scenario.shape.cpus) }
    ensures table { place.new.table_id ≡ place.old.table_id }
    ensures seat { (found : Run) × IsSeenIn run_log place.old.me.0.first place.old.me.0.after place.old.me.0.seen found
        × IsTurn found cpu result.0
        × (place.new.me ≡ (record place.old.me.0 { seen = after_turn found result.0 }, []))
        × (result.1 ≡ length (after_turn found result.0).entries) }
    ensures own { IsOwnEntry cpu result.0 }
{
    enter(rt, shared, place);
    let (turn, len, turns) = step_core(shared, place, hint, cpu);
    leave(shared, place, len);
    hint.tell(turns);
    (turn, len)
}
