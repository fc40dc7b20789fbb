//! A turn at the core: a seat enters by a ticket, has the core in hand, and leaves.
ghost use Rattle.std.specs.Prelude.{◌≡◌, ℕ, ◌<◌, ◌≤◌, [], ◌∷◌, Some, true, length};
ghost use Rattle.aps_seats.specs.Kinds.{IsStepped};
ghost use Rattle.aps_seats.specs.Rule.{IsFor, IsServed};
ghost use Rattle.aps_seats.specs.Seen.{IsSeenIn};
ghost use Rattle.aps_seats.specs.declared.view.Ticket.TheVariants.{NoTicket, Served, Waiting};

use crate::recorded::Recorded;
use crate::rule::{Look, Place, Publish, Release, SharedCore, TakeTicket};
use crossbeam_utils::Backoff;
use std::sync::Wait;

/// The word with the next ticket.
const TICKET: usize = 0;

/// The word with the ticket that is served.
const SERVING: usize = 1;

/// The word with the number of entries of the history.
pub(crate) const LENGTH: usize = 2;

/// The slot of the core.
pub const CORE: usize = 0;

fn take_ticket<C, H: Recorded<C>>(shared: &SharedCore<C, H>, place: &mut Place<C>) -> u64
    requires table { IsFor shared.now.table_id place.old.table_id }
    requires seat { (place.old.me.0.first < place.old.me.0.after) × (place.old.me.0.ticket ≡ NoTicket) × (place.old.me.1 ≡ []) }
    ensures table { place.new.table_id ≡ place.old.table_id }
    ensures seat { place.new.me ≡ (record place.old.me.0 { ticket = Waiting result }, []) }
{
    shared.fetch_add::<TakeTicket>(place, TICKET, 1)
}

/// Waits until the ticket is served. Then the seat has the core, and has seen all of its run.
fn wait_served<C, H: Recorded<C>, R: Wait>(
    rt: &R,
    shared: &SharedCore<C, H>,
    place: &mut Place<C>,
    ticket: u64,
)
    requires table { IsFor shared.now.table_id place.old.table_id }
    requires seat { (place.old.me.0.live ≡ true) × (place.old.me.0.ticket ≡ Waiting ticket) × (place.old.me.1 ≡ []) }
    ensures table { place.new.table_id ≡ place.old.table_id }
    ensures seat { (run : C) × IsSeenIn H.log place.old.me.0.first place.old.me.0.after place.old.me.0.seen run
        × (place.new.me ≡ (record place.old.me.0 { seen = run; ticket = Served ticket }, (0, Some run) ∷ [])) }
{
    let backoff = Backoff::new();
    for _ in rt.forever() {
        if shared.load::<Look<H>>(place, SERVING) == ticket {
            return;
        }
        backoff.snooze();
    }
    unreachable!()
}

/// Takes a ticket, and waits until it is served. Then the seat has the core in hand, and has seen all of its run.
pub fn enter<C, H: Recorded<C>, R: Wait>(rt: &R, shared: &SharedCore<C, H>, place: &mut Place<C>)
    requires table { IsFor shared.now.table_id place.old.table_id }
    requires seat { (place.old.me.0.live ≡ true) × (place.old.me.0.ticket ≡ NoTicket) × (place.old.me.1 ≡ []) }
    requires some_cpu { place.old.me.0.first < place.old.me.0.after }
    ensures table { place.new.table_id ≡ place.old.table_id }
    ensures seat { (run : C) × (ticket : ℕ) × IsSeenIn H.log place.old.me.0.first place.old.me.0.after place.old.me.0.seen run
        × (place.new.me ≡ (record place.old.me.0 { seen = run; ticket = Served ticket }, (0, Some run) ∷ [])) }
{
    let ticket = take_ticket(shared, place);
    wait_served(rt, shared, place, ticket);
}

/// Publishes how many entries the core in hand has, and gives the ticket back, with the core at home. The seat has seen
/// the core's run.
pub fn leave<C, H: Recorded<C>>(shared: &SharedCore<C, H>, place: &mut Place<C>, len: u64)
    requires table { IsFor shared.now.table_id place.old.table_id }
    requires held { (run : C) × (place.old.me.0.live ≡ true) × IsServed place.old.me.0.ticket × (place.old.me.1 ≡ (0, Some run) ∷ [])
        × IsStepped H.log place.old.me.0.first place.old.me.0.after place.old.me.0.seen run
        × (len ≡ length (H.log.entries_of run)) }
    ensures table { place.new.table_id ≡ place.old.table_id }
    ensures seat { (run : C) × (place.old.me.1 ≡ (0, Some run) ∷ [])
        × (place.new.me ≡ (record place.old.me.0 { seen = run; ticket = NoTicket }, [])) }
{
    shared.swap::<Publish>(place, LENGTH, len);
    shared.fetch_add::<Release>(place, SERVING, 1);
}
