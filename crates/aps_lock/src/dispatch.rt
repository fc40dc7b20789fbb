//! The dispatcher: many threads take the turns of one core under a lock.
ghost use Rattle.std.specs.Prelude.{◌≡◌, ℕ, ◌+◌, ◌-◌, ◌<◌, ◌≤◌, ◌++◌, length, nat_lt, IfOk, IfErr};
ghost use Rattle.aps_core.specs.Run.{Run};
ghost use Rattle.aps_model.specs.Seat.{IsSeen, own_entries};
ghost use Rattle.aps_lock.specs.RunLog.{run_log};
ghost use Rattle.aps_lock.specs.Seats.{HasAllCpus, HasCpu, HasSeen, IsSeatOf, IsSeatTurn, taken, waited_after};
ghost use Rattle.aps_seats.specs.Seen.{longer};

use crate::cpu_set::CpuSet;
use crate::hint::Hint;
use crate::rule::{CoreTable, RunLog};
use crate::seat::CpuSeat;
use crate::step::{len_of, turn_place};
use crate::turns::last_cpu;
use aps_core::{Core, Turn};
use aps_model::CpuId;
use aps_seats::{begin, cut, end, load_len, merge, witness};
use std::alloc::Global;
use std::marker::{Brand, Model};
use std::sync::Wait;

/// A run whose turns many threads take, one at a time, under a lock. Contracts see the setup of the run, which nothing
/// changes, and which seats are this dispatcher's. What their words mean stands in docs/DEFINITIONS.md, under 'Runs,
/// picks, seats and drivers'.
#[derive(Drop)]
pub struct Dispatch {
    table: CoreTable,
    hint: Hint,
}

impl Model for Dispatch {
    ghost use Rattle.std.specs.Prelude.{◌≡◌};
    ghost use Rattle.aps_lock.specs.Seats.{DispatchData};

    ghost Value = { DispatchData };

    ghost view = { λ d. record { table = d.table.shared.table_id; setup = d.table.shared.key.value.setup } };

    ghost invariant = { λ d. (d.table.shared.table_id.words ≡ 3) × (d.table.shared.table_id.slots ≡ 1) };
}

impl Dispatch {
    /// A dispatcher of the core, and the seat that has all its processors and has seen all its entries. Where there is
    /// no memory the core comes back as it was.
    pub fn open(alloc: Global, core: Core) -> Result<(Dispatch, CpuSeat), Core>
        ensures dispatch { IfOk result (λ r. r.0.setup ≡ core.setup) }
        ensures seat { IfOk result (λ r. r.1
            ≡ record { table = r.0.table; seen = core; first = 0; last = core.setup.scenario.shape.cpus - 1; waited = 0 }) }
        ensures of { IfOk result (λ r. IsSeatOf r.0 r.1 × HasAllCpus r.1) }
        ensures refused { IfErr result (λ c. c ≡ core) }
    {
        let Ok(hint) = Hint::begin(alloc, &core) else {
            return Err(core);
        };
        let seen_len = len_of(&core);
        let last = last_cpu(&core);
        match begin::<Core, RunLog>(alloc, core, seen_len) {
            Ok((table, place)) => {
                let seat = CpuSeat {
                    place,
                    first: CpuId::at(0),
                    last,
                    seen_len,
                    waited: 0,
                };
                Ok((Dispatch { table, hint }, seat))
            }
            Err(core) => Err(core),
        }
    }

    /// Makes one step of the core under the lock, for which it waits. The seat then has seen all of the history up to
    /// there: what it had seen, what came since of processors of other seats, and the entry of this turn if it took
    /// one. Where the answer is that a processor of another seat has the turn, what the seat has waited grows by 1, or
    /// stands at the greatest `u64`; after any other answer it is 0.
    pub fn turn<R: Wait>(&self, rt: &R, seat: &mut CpuSeat, cpu: CpuId) -> Turn
        requires seat { IsSeatOf self.now seat.old }
        requires cpu { HasCpu seat.old cpu }
        ensures turn { IsSeatTurn seat.old cpu result seat.new }
        ensures own { own_entries seat.old.first seat.old.last seat.new.seen.entries
            ≡ own_entries seat.old.first seat.old.last seat.old.seen.entries ++ taken result }
        ensures of { IsSeatOf self.now seat.new }
    {
        let (turn, seen_len) = turn_place(rt, &self.table.shared, &self.hint, &mut seat.place, cpu);
        seat.seen_len = seen_len;
        seat.waited = count_waited(seat.first, seat.last, seat.waited, &turn);
        turn
    }

    /// Whether the history has more entries than the seat has seen. This is advice: it takes no turn and waits for
    /// nobody, and more entries may have come since.
    pub fn has_grown(&self, seat: &mut CpuSeat) -> bool
        requires seat { IsSeatOf self.now seat.old }
        ensures seat { seat.new ≡ seat.old }
        ensures found { (run : Run) × HasSeen seat.old run × (result ≡ nat_lt (length seat.old.seen.entries) (length run.entries)) }
    {
        load_len(&self.table.shared, &mut seat.place) > seat.seen_len
    }

    /// Tells on how many processors of the machine the drivers run; until then it is taken to be 4. So many drivers at
    /// most are awake beside one another. This is advice.
    pub fn set_cores(&self, cores: usize) {
        self.hint.set_cores(cores as u64);
    }

    /// Whether more processors are simulated than the machine has, as far as was told. This is advice.
    pub fn is_crowded(&self) -> bool {
        self.hint.is_crowded()
    }

    /// Whether a processor of the seat may have the turn. This is advice: it takes no turn and waits for nobody, and the
    /// turn may be another's by then.
    pub fn may_turn(&self, seat: &CpuSeat) -> bool {
        self.hint.may_turn(CpuSet::between(seat.first, seat.last))
    }

    /// Waits until a processor of the seat may have the turn: where it comes soon the driver looks for a while, and else it
    /// sleeps until another driver's turn wakes it. It comes back sooner where a processor that may have the turn has no
    /// driver at hand, or where nobody wakes it for 100 ms, and so does a seat of several processors, which never sleeps.
    /// This is advice: it takes no turn, and the turn may be another's by then.
    pub fn await_turn<R: Wait>(&self, rt: &R, seat: &CpuSeat) {
        if seat.first == seat.last {
            self.hint.await_turn(rt, seat.first);
        }
    }

    /// Waits while another driver takes a long row of turns in vain, unless a processor of the seat may have the turn. So
    /// drivers that can only give up do so one after the other, and none waits at the lock for another that wants for a
    /// processor of the machine. A sleep ends by itself after 100 ms. A seat of several processors doesn't wait. This is
    /// advice: it takes no turn.
    pub fn await_vain<R: Wait>(&self, rt: &R, seat: &CpuSeat) {
        if seat.first == seat.last {
            self.hint.await_vain(rt, seat.first);
        }
    }

    /// Tells the other drivers whether a driver of this seat waits for its turns and takes them, or does something else
    /// meanwhile. While it does, others don't sleep where the seat may have the turn, and those that sleep are woken. This is
    /// advice too.
    pub fn set_at_hand(&self, seat: &CpuSeat, is_at_hand: bool) {
        self.hint
            .set_at_hand(CpuSet::between(seat.first, seat.last), is_at_hand);
    }

    /// Tells the other drivers that this seat has no driver any more, and wakes those who would wait for it.
    pub fn leave(&self, seat: &CpuSeat) {
        self.hint.leave(CpuSet::between(seat.first, seat.last));
    }

    /// Gives the seat's processors from `at` on to a new seat, which has seen what the seat has seen. The seat keeps at
    /// least its first one. What both have waited becomes 0.
    pub fn split(&self, seat: &mut CpuSeat, at: CpuId) -> CpuSeat
        requires seat { IsSeatOf self.now seat.old }
        requires at { (seat.old.first < at) × (at ≤ seat.old.last) }
        ensures kept { seat.new ≡ record seat.old { last = at - 1; waited = 0 } }
        ensures given { result ≡ record seat.old { first = at; waited = 0 } }
        ensures of { IsSeatOf self.now seat.new × IsSeatOf self.now result }
    {
        let place = cut::<Core, RunLog, Brand>(&self.table.shared, &mut seat.place, at);
        let last = seat.last;
        seat.last = CpuId::at(at.index() - 1);
        seat.waited = 0;
        CpuSeat {
            place,
            first: at,
            last,
            seen_len: seat.seen_len,
            waited: 0,
        }
    }

    /// Takes in the seat whose processors follow. It keeps the longer seen list, in which are all entries of both
    /// seats. What the seat has waited becomes 0.
    pub fn join(&self, seat: &mut CpuSeat, other: CpuSeat)
        requires seat { IsSeatOf self.now seat.old }
        requires other { IsSeatOf self.now other }
        requires next { seat.old.last + 1 ≡ other.first }
        ensures seat { seat.new ≡ record seat.old { seen = longer run_log seat.old.seen other.seen; last = other.last; waited = 0 } }
        ensures own { HasSeen seat.old seat.new.seen }
        ensures other { HasSeen other seat.new.seen }
        ensures of { IsSeatOf self.now seat.new }
    {
        let CpuSeat {
            place,
            first: _,
            last,
            seen_len,
            waited: _,
        } = other;
        merge(&self.table.shared, &mut seat.place, place);
        seat.last = last;
        seat.seen_len = seat.seen_len.max(seen_len);
        seat.waited = 0;
    }

    /// Lets `b` see what `a` has seen: the seen list of `b` becomes the longer of the two, and the other one is a
    /// beginning of it. `a` stays as it was, and so does what `b` has waited.
    pub fn meet(&self, a: &mut CpuSeat, b: &mut CpuSeat)
        requires a { IsSeatOf self.now a.old }
        requires b { IsSeatOf self.now b.old }
        ensures a { a.new ≡ a.old }
        ensures b { b.new ≡ record b.old { seen = longer run_log b.old.seen a.old.seen } }
        ensures a_seen { IsSeen a.old.seen.entries b.new.seen.entries }
        ensures b_seen { HasSeen b.old b.new.seen }
        ensures no_less { length a.new.seen.entries ≤ length b.new.seen.entries }
        ensures of { IsSeatOf self.now a.new × IsSeatOf self.now b.new }
    {
        let seen_len = a.seen_len;
        let told = witness(&self.table.shared, &mut a.place);
        merge(&self.table.shared, &mut b.place, told);
        b.seen_len = b.seen_len.max(seen_len);
    }

    /// The core out of the dispatcher, by the seat that has all processors. Its entries are those that the seat has
    /// seen.
    pub fn close(self, seat: CpuSeat) -> Core
        requires seat { IsSeatOf self seat }
        requires all { HasAllCpus seat }
        ensures { result ≡ seat.seen }
    {
        let CpuSeat {
            place,
            first: _,
            last: _,
            seen_len: _,
            waited: _,
        } = seat;
        let Dispatch { table, hint: _ } = self;
        end(table, place)
    }
}

/// How many turns in a row named a processor of another seat, after this answer of a seat with these processors.
fn count_waited(first: CpuId, last: CpuId, waited: u64, turn: &Turn) -> u64
    ensures { result ≡ waited_after first last waited turn.now }
{
    match turn {
        Turn::NotYet { cpu, .. } => {
            if first <= *cpu && *cpu <= last {
                0
            } else {
                waited.saturating_add(1)
            }
        }
        _ => 0,
    }
}
