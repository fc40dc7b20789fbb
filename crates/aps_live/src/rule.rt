//! The table of the core under the rule of the lock.
use crate::live_core::LiveCore;
use aps_seats::{Place, Recorded, SeatTable, SharedCore};

/// How the core's run is read.
pub(crate) struct RunLog;

impl Recorded<LiveCore> for RunLog {
    ghost use Rattle.aps_live.specs.RunLog.{live_log};

    ghost log = { live_log };
}

pub(crate) type CoreTable = SeatTable<LiveCore, RunLog>;

pub(crate) type CoreLock = SharedCore<LiveCore, RunLog>;

pub(crate) type CorePlace = Place<LiveCore>;
