//! The right to take the turns of some processors.
ghost use Rattle.std.specs.Prelude.{◌≡◌, ◌<◌, ◌≤◌, length};

use crate::rule::CorePlace;
use aps_model::CpuId;
use std::marker::Model;

/// The right to take the turns of some processors. Contracts see the run as the seat has seen it: the dispatcher's
/// history up to some moment, which is that of the last turn of this seat, or a later one where it met or took in a seat
/// that had seen more. docs/DEFINITIONS.md says more, under 'Runs, picks, seats and drivers'.
#[derive(Drop)]
pub struct CpuSeat {
    pub(crate) place: CorePlace,
    pub(crate) first: CpuId,
    pub(crate) last: CpuId,
    pub(crate) seen_len: u64,
    pub(crate) waited: u64,
}

impl Model for CpuSeat {
    ghost use Rattle.aps_lock.specs.RunLog.{run_log};
    ghost use Rattle.aps_lock.specs.Seats.{SeatData};
    ghost use Rattle.aps_seats.specs.Idle.{IsIdle};

    ghost Value = { SeatData };

    ghost view = { λ s. record { table = s.place.table_id; seen = s.place.me.0.seen; first = s.first; last = s.last; waited = s.waited } };

    ghost invariant = { λ s. IsIdle run_log s.place.me.0 s.place.me.1 s.first s.last s.seen_len };
}

impl CpuSeat {
    /// How many turns in a row, up to the seat's last one, answered that a processor of another seat has the turn.
    /// A split or a join begins the count anew. It stands still at the greatest `u64`.
    pub fn waited(&self) -> u64
        ensures { result ≡ self.now.waited }
    {
        self.waited
    }

    /// How many entries of the history the seat has seen.
    pub fn seen_len(&self) -> u64
        ensures { result ≡ length self.now.seen.entries }
    {
        self.seen_len
    }

    /// The seat's first processor.
    pub fn first(&self) -> CpuId
        ensures same { result ≡ self.now.first }
        ensures some_cpu { self.now.first ≤ self.now.last }
    {
        self.first
    }

    /// The seat's last processor, which exists.
    pub fn last(&self) -> CpuId
        ensures same { result ≡ self.now.last }
        ensures exists { self.now.last < self.now.seen.setup.scenario.shape.cpus }
    {
        self.last
    }
}
