//! The right to step some processors of a live scheduler.
ghost use Rattle.std.specs.Prelude.{◌≡◌, ◌<◌, ◌≤◌, length};

use crate::rule::CorePlace;
use aps_model::CpuId;
use std::marker::Model;

/// The right to step some processors. Contracts see the run as the seat has seen it: the history up to some moment, which
/// is that of the last call of this seat, or a later one where it took in a seat that had seen more.
#[derive(Drop)]
pub struct LiveSeat {
    pub(crate) place: CorePlace,
    pub(crate) first: CpuId,
    pub(crate) last: CpuId,
    pub(crate) seen_len: u64,
}

impl Model for LiveSeat {
    ghost use Rattle.aps_live.specs.RunLog.{live_log};
    ghost use Rattle.aps_live.specs.Seats.{LiveSeatData};
    ghost use Rattle.aps_seats.specs.Idle.{IsIdle};

    ghost Value = { LiveSeatData };

    ghost view = { λ s. record { table = s.place.table_id; seen = s.place.me.0.seen; first = s.first; last = s.last } };

    ghost invariant = { λ s. IsIdle live_log s.place.me.0 s.place.me.1 s.first s.last s.seen_len };
}

impl LiveSeat {
    /// How many entries of the history the seat has seen.
    pub fn seen_len(&self) -> u64
        ensures { result ≡ length self.now.seen.steps }
    {
        self.seen_len
    }

    /// The seat's first processor.
    pub fn first(&self) -> CpuId
        ensures same { result ≡ self.now.first }
        ensures some_cpu { self.now.first ≤ self.now.last }
    {
        self.first
    }

    /// The seat's last processor, which exists.
    pub fn last(&self) -> CpuId
        ensures same { result ≡ self.now.last }
        ensures exists { self.now.last < self.now.seen.setup.scenario.shape.cpus }
    {
        self.last
    }
}
