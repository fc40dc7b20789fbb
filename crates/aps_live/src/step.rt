//! One step of the core under the lock.
ghost use Rattle.std.specs.Prelude.{◌≡◌, ◌<◌, ◌≤◌, [], ◌∷◌, Some, true, length};
ghost use Rattle.aps_live.specs.LiveHistory.{NamesThread};
ghost use Rattle.aps_live.specs.LiveRun.{IsLiveTurn, IsOwn, LiveRun, after_live_turn};
ghost use Rattle.aps_live.specs.RunLog.{live_log};
ghost use Rattle.aps_model.specs.Limits.{last_moment};
ghost use Rattle.aps_seats.specs.Rule.{IsFor};
ghost use Rattle.aps_seats.specs.Seen.{IsSeenIn};
ghost use Rattle.aps_seats.specs.declared.view.Ticket.TheVariants.{NoTicket};

use crate::event::LiveEvent;
use crate::live_core::LiveCore;
use crate::rule::{CoreLock, CorePlace};
use crate::turn::LiveTurn;
use aps_model::{CpuId, Nanos};
use aps_seats::{CORE, enter, leave};
use std::sync::Wait;

/// How many entries the core has.
pub(crate) fn len_of(core: &LiveCore) -> u64
    ensures { result ≡ length core.now.steps }
{
    core.entries().len() as u64
}

/// Steps the core, which stays in its slot. The second of the answer is the number of entries then.
fn step_core(
    shared: &CoreLock,
    place: &mut CorePlace,
    cpu: CpuId,
    now: Nanos,
    event: LiveEvent,
) -> (LiveTurn, u64)
    requires table { IsFor shared.now.table_id place.old.table_id }
    requires held { (run : LiveRun) × (place.old.me.1 ≡ (0, Some run) ∷ []) × (cpu < run.setup.scenario.shape.cpus)
        × NamesThread run.setup.scenario event }
    requires early { now ≤ last_moment }
    ensures table { place.new.table_id ≡ place.old.table_id }
    ensures held { (run : LiveRun) × (place.old.me.1 ≡ (0, Some run) ∷ []) × IsLiveTurn run cpu now event result.0
        × (place.new.me ≡ (place.old.me.0, (0, Some (after_live_turn run event result.0)) ∷ []))
        × (result.1 ≡ length (after_live_turn run event result.0).steps) }
    ensures own { IsOwn cpu result.0 }
{
    let Some(core) = place.slot_mut(shared, CORE) else {
        unreachable!()
    };
    let turn = core.step(cpu, now, event);
    let len = len_of(core);
    (turn, len)
}

/// One step of the processor, from the ticket to the release. The second of the answer is the number of entries then.
pub(crate) fn turn_place<R: Wait>(
    rt: &R,
    shared: &CoreLock,
    place: &mut CorePlace,
    cpu: CpuId,
    now: Nanos,
    event: LiveEvent,
) -> (LiveTurn, u64)
    requires table { IsFor shared.now.table_id place.old.table_id }
    requires seat { (place.old.me.0.live ≡ true) × (place.old.me.0.ticket ≡ NoTicket) × (place.old.me.1 ≡ []) }
    requires cpu { (place.old.me.0.first ≤ cpu) × (cpu < place.old.me.0.after)
        × (place.old.me.0.after ≤ place.old.me.0.seen.setup.scenario.shape.cpus) }
    requires early { now ≤ last_moment }
    requires named { NamesThread place.old.me.0.seen.setup.scenario event }
    ensures table { place.new.table_id ≡ place.old.table_id }
    ensures seat { (found : LiveRun) × IsSeenIn live_log place.old.me.0.first place.old.me.0.after place.old.me.0.seen found
        × IsLiveTurn found cpu now event result.0
        × (place.new.me ≡ (record place.old.me.0 { seen = after_live_turn found event result.0 }, []))
        × (result.1 ≡ length (after_live_turn found event result.0).steps) }
    ensures own { IsOwn cpu result.0 }
{
    enter(rt, shared, place);
    let (turn, len) = step_core(shared, place, cpu, now, event);
    leave(shared, place, len);
    (turn, len)
}
