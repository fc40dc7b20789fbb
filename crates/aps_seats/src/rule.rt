//! The table under the rule of the lock, and the kinds of step that its words take.
use crate::recorded::Recorded;
use crate::view::View;
use atomic_table::{Join, Play, Split, TableRule};
use std::alloc::Global;
use std::marker::{Brand, PhantomData};
use std::snapshot::Snapshot;

/// The rule: what is true of the words, the slot and all seats between any two steps.
pub struct Rule<H> {
    log: PhantomData<H>,
}

impl<C, H: Recorded<C>> TableRule<Option<C>, View<C>, Snapshot<C>> for Rule<H> {
    ghost use Rattle.aps_seats.specs.Kinds.{started};
    ghost use Rattle.aps_seats.specs.Rule.{KeepsRule};

    ghost holds = { λ _. KeepsRule H.log };

    ghost first = { λ key. started H.log key.value };
}

/// The table, which has the core in its slot.
pub type SeatTable<C, H> = atomic_table::Table<Option<C>, View<C>, Snapshot<C>, Rule<H>, Global>;

/// What threads share of it.
pub type SharedCore<C, H> = atomic_table::Shared<Option<C>, View<C>, Snapshot<C>, Rule<H>>;

/// A seat at the table.
pub type Place<C> = atomic_table::Seat<Option<C>, View<C>>;

/// A ticket is taken.
pub struct TakeTicket;

impl<C> Play<Option<C>, View<C>> for TakeTicket {
    ghost use Rattle.aps_seats.specs.Kinds.{TakesTicket};

    ghost then = { TakesTicket };
}

/// The served ticket is looked at.
pub struct Look<H> {
    log: PhantomData<H>,
}

impl<C, H: Recorded<C>> Play<Option<C>, View<C>> for Look<H> {
    ghost use Rattle.aps_seats.specs.Kinds.{Looks};

    ghost then = { Looks H.log };
}

/// The length of the history is published.
pub struct Publish;

impl<C> Play<Option<C>, View<C>> for Publish {
    ghost use Rattle.aps_seats.specs.Kinds.{Publishes};

    ghost then = { Publishes };
}

/// The ticket is given back.
pub struct Release;

impl<C> Play<Option<C>, View<C>> for Release {
    ghost use Rattle.aps_seats.specs.Kinds.{Releases};

    ghost then = { Releases };
}

/// The length of the history is loaded.
pub struct Tell<H> {
    log: PhantomData<H>,
}

impl<C, H: Recorded<C>> Play<Option<C>, View<C>> for Tell<H> {
    ghost use Rattle.aps_seats.specs.Kinds.{Tells};

    ghost then = { Tells H.log };
}

/// The processor at which a seat is cut. The call picks it.
pub trait CutAt {
    ghost use Rattle.std.specs.Prelude.{ℕ};

    ghost at: { ℕ };
}

impl CutAt for Brand {
    ghost at = { 0 };
}

/// A seat is split in two.
pub struct Cut<A> {
    at: PhantomData<A>,
}

impl<C, A: CutAt> Split<View<C>> for Cut<A> {
    ghost use Rattle.aps_seats.specs.Kinds.{cut_left, cut_right};

    ghost left = { cut_left A.at };

    ghost right = { cut_right A.at };
}

/// A seat with no processor is split off, which has seen as much.
pub struct Witness;

impl<C> Split<View<C>> for Witness {
    ghost use Rattle.aps_seats.specs.Kinds.{witness_of};

    ghost left = { λ v. v };

    ghost right = { witness_of };
}

/// A seat takes in another.
pub struct Both<H> {
    log: PhantomData<H>,
}

impl<C, H: Recorded<C>> Join<View<C>> for Both<H> {
    ghost use Rattle.aps_seats.specs.Kinds.{joined, spent};

    ghost both = { joined H.log };

    ghost spent = { spent H.log };
}
