//! The live scheduler: many threads step it under a lock.
ghost use Rattle.std.specs.Prelude.{◌≡◌, ℕ, ◌+◌, ◌-◌, ◌<◌, ◌≤◌, ◌++◌, [], IfOk};
ghost use Rattle.aps_live.specs.LiveHistory.{NamesThread};
ghost use Rattle.aps_live.specs.RunLog.{live_log};
ghost use Rattle.aps_live.specs.Seats.{HasAllCpus, HasCpu, HasSeen, IsSeatOf, IsSeatTurn, own_steps, taken};
ghost use Rattle.aps_seats.specs.Seen.{longer};
ghost use Rattle.aps_model.specs.Limits.{last_moment, most_entries};

use crate::event::LiveEvent;
use crate::history::LiveHistory;
use crate::live_core::LiveCore;
use crate::rule::{CoreTable, RunLog};
use crate::seat::LiveSeat;
use crate::step::{len_of, turn_place};
use crate::turn::LiveTurn;
use aps_model::{CpuId, Nanos, NoMemory, Scenario};
use aps_seats::{begin, cut, end, merge};
use std::alloc::{AllocError, Global};
use std::marker::{Brand, Model};
use std::sync::Wait;

/// A scheduler that many threads step, one at a time, under a lock. Contracts see the setup of its run, which nothing
/// changes, and which seats are its.
pub struct Live {
    table: CoreTable,
}

// Written out, so that it is proved here alone: a derived drop is proved again in each crate that lets a value go.
impl Drop for Live {
    fn drop(self) {
        let Self { table: _ } = self;
    }
}

impl Model for Live {
    ghost use Rattle.std.specs.Prelude.{◌≡◌};
    ghost use Rattle.aps_live.specs.Seats.{LiveData};

    ghost Value = { LiveData };

    ghost view = { λ d. record { table = d.table.shared.table_id; setup = d.table.shared.key.value.setup } };

    ghost invariant = { λ d. (d.table.shared.table_id.words ≡ 3) × (d.table.shared.table_id.slots ≡ 1) };
}

impl Live {
    /// A scheduler with an empty history of at most `limit` entries, 1 to 4,000,000, and the seat that has all its
    /// processors. Of the scenario only the partition rows, the threads' own values and, of the shape, the processors,
    /// tick, window, parts and policies are used. All memory is taken here; `NoMemory` drops the scenario.
    pub fn open(alloc: Global, scenario: Scenario, limit: u32) -> Result<(Live, LiveSeat), NoMemory>
        requires some { 1 ≤ limit }
        requires few { limit ≤ most_entries }
        ensures live { IfOk result (λ r. r.0.setup ≡ record { scenario = scenario; limit = limit }) }
        ensures seat { IfOk result (λ r. r.1
            ≡ record { table = r.0.table; seen = record { setup = r.0.setup; steps = [] }; first = 0; last = scenario.shape.cpus - 1 }) }
        ensures of { IfOk result (λ r. IsSeatOf r.0 r.1 × HasAllCpus r.1) }
    {
        let core = LiveCore::begin(alloc, scenario, limit)?;
        let seen_len = len_of(&core);
        let last = last_cpu(&core);
        match begin::<LiveCore, RunLog>(alloc, core, seen_len) {
            Ok((table, place)) => {
                let seat = LiveSeat {
                    place,
                    first: CpuId::at(0),
                    last,
                    seen_len,
                };
                Ok((Live { table }, seat))
            }
            Err(_) => Err(AllocError),
        }
    }

    /// Makes one step of the processor at this moment under the lock, for which it waits. Moments are ns, at most
    /// 10,000,000,000,000. Where the moment is before the latest one of the history the answer is `Back`, else where the
    /// history has reached its limit `Full`; neither changes it. Otherwise the entry of the step is added. The seat then
    /// has seen all of the history: what it had seen, what came since of processors of other seats, and the entry of this
    /// call if it took one.
    pub fn live_step<R: Wait>(
        &self,
        rt: &R,
        seat: &mut LiveSeat,
        cpu: CpuId,
        now: Nanos,
        event: LiveEvent,
    ) -> LiveTurn
        requires seat { IsSeatOf self.now seat.old }
        requires cpu { HasCpu seat.old cpu }
        requires early { now ≤ last_moment }
        requires named { NamesThread self.now.setup.scenario event }
        ensures turn { IsSeatTurn seat.old cpu now event result seat.new }
        ensures own { own_steps seat.old.first seat.old.last seat.new.seen.steps
            ≡ own_steps seat.old.first seat.old.last seat.old.seen.steps ++ taken event result }
        ensures of { IsSeatOf self.now seat.new }
    {
        let (turn, seen_len) = turn_place(rt, &self.table.shared, &mut seat.place, cpu, now, event);
        seat.seen_len = seen_len;
        turn
    }

    /// Gives the seat's processors from `at` on to a new seat, which has seen what the seat has seen. The seat keeps at
    /// least its first one.
    pub fn split(&self, seat: &mut LiveSeat, at: CpuId) -> LiveSeat
        requires seat { IsSeatOf self.now seat.old }
        requires at { (seat.old.first < at) × (at ≤ seat.old.last) }
        ensures kept { seat.new ≡ record seat.old { last = at - 1 } }
        ensures given { result ≡ record seat.old { first = at } }
        ensures of { IsSeatOf self.now seat.new × IsSeatOf self.now result }
    {
        let place = cut::<LiveCore, RunLog, Brand>(&self.table.shared, &mut seat.place, at);
        let last = seat.last;
        seat.last = CpuId::at(at.index() - 1);
        LiveSeat {
            place,
            first: at,
            last,
            seen_len: seat.seen_len,
        }
    }

    /// Takes in the seat whose processors follow. It keeps the longer seen list, in which are all entries of both
    /// seats.
    pub fn join(&self, seat: &mut LiveSeat, other: LiveSeat)
        requires seat { IsSeatOf self.now seat.old }
        requires other { IsSeatOf self.now other }
        requires next { seat.old.last + 1 ≡ other.first }
        ensures seat { seat.new ≡ record seat.old { seen = longer live_log seat.old.seen other.seen; last = other.last } }
        ensures own { HasSeen seat.old seat.new.seen }
        ensures other { HasSeen other seat.new.seen }
        ensures of { IsSeatOf self.now seat.new }
    {
        let LiveSeat {
            place,
            first: _,
            last,
            seen_len,
        } = other;
        merge(&self.table.shared, &mut seat.place, place);
        seat.last = last;
        seat.seen_len = seat.seen_len.max(seen_len);
    }

    /// The history out of the scheduler, by the seat that has all processors. It is what the seat has seen.
    pub fn close(self, seat: LiveSeat) -> LiveHistory
        requires seat { IsSeatOf self seat }
        requires all { HasAllCpus seat }
        ensures { result ≡ seat.seen }
    {
        let LiveSeat {
            place,
            first: _,
            last: _,
            seen_len: _,
        } = seat;
        let Live { table } = self;
        LiveHistory {
            core: end(table, place),
        }
    }
}

/// The last of the core's processors, of which there are 1 to 16.
fn last_cpu(core: &LiveCore) -> CpuId
    ensures last { result + 1 ≡ core.now.setup.scenario.shape.cpus }
    ensures few { result ≤ 15 }
{
    CpuId::at(usize::from(core.scenario().shape().cpus) - 1)
}
