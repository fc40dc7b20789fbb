//! How seats begin, are cut and joined, and end.
ghost use Rattle.std.specs.Prelude.{◌≡◌, ℕ, ◌≤◌, ◌⊎◌, [], true, length, IfOk, IfErr};
ghost use Rattle.aps_model.specs.Limits.{most_cpus};
ghost use Rattle.aps_seats.specs.Kinds.{cut_left, cut_right, joined, started, witness_of};
ghost use Rattle.aps_seats.specs.Rule.{IsFor, room};
ghost use Rattle.aps_seats.specs.Seen.{IsSeenIn};
ghost use Rattle.aps_seats.specs.declared.view.Ticket.TheVariants.{NoTicket};

use crate::recorded::Recorded;
use crate::rule::{Both, Cut, CutAt, Place, SeatTable, SharedCore, Tell, Witness};
use crate::turn::{CORE, LENGTH};
use aps_model::CpuId;
use atomic_table::{Refused, Table};
use std::alloc::{AllocFailed, Global};
use std::snapshot::Snapshot;

/// A table of this core, which has so many entries, and the seat that has all its processors and has seen all its entries.
/// Where there is no memory the core comes back as it was.
pub fn begin<C: Drop, H: Recorded<C>>(
    alloc: Global,
    core: C,
    len: u64,
) -> Result<(SeatTable<C, H>, Place<C>), C>
    requires few { H.log.cpus_of core ≤ most_cpus }
    requires len { len ≡ length (H.log.entries_of core) }
    ensures table { IfOk result (λ r. IsFor r.0.shared.table_id r.1.table_id) }
    ensures key { IfOk result (λ r. r.0.shared.key.value ≡ core) }
    ensures seat { IfOk result (λ r. r.1.me ≡ (started H.log core, [])) }
    ensures refused { IfErr result (λ c. c ≡ core) }
{
    let about = Snapshot::of(&core);
    let mut slots = Vec::new(alloc);
    if let Err(AllocFailed { value }) = slots.push(Some(core)) {
        return Err(value.unwrap());
    }
    match Table::new(alloc, &[0, 0, len], slots, &about) {
        Ok(both) => Ok(both),
        Err(Refused { mut slots }) => Err(slots.pop().unwrap().unwrap()),
    }
}

/// The core out of the table, by the seat that has all processors. Its run is what the seat has seen.
pub fn end<C, H: Recorded<C>>(table: SeatTable<C, H>, place: Place<C>) -> C
    requires table { IsFor table.shared.table_id place.table_id }
    requires seat { (place.me.0.live ≡ true) × (place.me.0.ticket ≡ NoTicket) }
    requires all { (place.me.0.first ≡ 0) × (place.me.0.after ≡ H.log.cpus_of place.me.0.seen) }
    ensures { result ≡ place.me.0.seen }
{
    let mut closed = table.close_with(place);
    let core = closed.take(CORE).unwrap();
    closed.free();
    core
}

/// Cuts the seat in two at a processor.
pub fn cut<C, H: Recorded<C>, A: CutAt>(
    shared: &SharedCore<C, H>,
    place: &mut Place<C>,
    _at: CpuId,
) -> Place<C>
    requires table { IsFor shared.now.table_id place.old.table_id }
    requires at { (A.at ≡ _at) × (place.old.me.0.first ≤ _at) × (_at ≤ place.old.me.0.after) }
    requires seat { (place.old.me.0.ticket ≡ NoTicket) × (place.old.me.1 ≡ []) }
    ensures left { (place.new.table_id ≡ place.old.table_id) × (place.new.me ≡ (cut_left _at place.old.me.0, [])) }
    ensures right { (result.table_id ≡ place.old.table_id) × (result.me ≡ (cut_right _at place.old.me.0, [])) }
{
    shared.split_seat::<Cut<A>>(place)
}

/// Takes in another seat, and learns that both had seen the beginning of one run.
pub fn merge<C, H: Recorded<C>>(shared: &SharedCore<C, H>, place: &mut Place<C>, other: Place<C>)
    requires table { IsFor shared.now.table_id place.old.table_id × IsFor shared.now.table_id other.table_id }
    requires seat { (place.old.me.0.live ≡ true) × (place.old.me.0.ticket ≡ NoTicket) × (place.old.me.1 ≡ []) }
    requires other { (other.me.0.live ≡ true) × (other.me.0.ticket ≡ NoTicket) × (other.me.1 ≡ []) }
    requires near { (room other.me.0 ≡ 0) ⊎ (place.old.me.0.after ≡ other.me.0.first) }
    ensures table { place.new.table_id ≡ place.old.table_id }
    ensures seat { place.new.me ≡ (joined H.log place.old.me.0 other.me.0, []) }
    ensures seen { IsSeenIn H.log place.old.me.0.first place.old.me.0.after place.old.me.0.seen place.new.me.0.seen
        × IsSeenIn H.log other.me.0.first other.me.0.after other.me.0.seen place.new.me.0.seen }
{
    shared.join_seat::<Both<H>>(place, other);
    shared.load::<Tell<H>>(place, LENGTH);
}

/// How many entries the history has. More may have come since.
pub fn load_len<C, H: Recorded<C>>(shared: &SharedCore<C, H>, place: &mut Place<C>) -> u64
    requires table { IsFor shared.now.table_id place.old.table_id }
    requires seat { (place.old.me.0.live ≡ true) × (place.old.me.1 ≡ []) }
    ensures table { place.new.table_id ≡ place.old.table_id }
    ensures seat { place.new.me ≡ place.old.me }
    ensures seen { (run : C) × IsSeenIn H.log place.old.me.0.first place.old.me.0.after place.old.me.0.seen run
        × (result ≡ length (H.log.entries_of run)) }
{
    shared.load::<Tell<H>>(place, LENGTH)
}

/// A seat with no processor, which has seen as much.
pub fn witness<C, H: Recorded<C>>(shared: &SharedCore<C, H>, place: &mut Place<C>) -> Place<C>
    requires table { IsFor shared.now.table_id place.old.table_id }
    requires seat { (place.old.me.0.ticket ≡ NoTicket) × (place.old.me.1 ≡ []) }
    ensures left { (place.new.table_id ≡ place.old.table_id) × (place.new.me ≡ place.old.me) }
    ensures right { (result.table_id ≡ place.old.table_id) × (result.me ≡ (witness_of place.old.me.0, [])) }
{
    shared.split_seat::<Witness>(place)
}
