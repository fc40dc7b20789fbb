//! The table of the core under the rule of the lock.
use aps_core::Core;
use aps_seats::{Place, Recorded, SeatTable, SharedCore};

/// How the core's run is read.
pub(crate) struct RunLog;

impl Recorded<Core> for RunLog {
    ghost use Rattle.aps_lock.specs.RunLog.{run_log};

    ghost log = { run_log };
}

pub(crate) type CoreTable = SeatTable<Core, RunLog>;

pub(crate) type CoreLock = SharedCore<Core, RunLog>;

pub(crate) type CorePlace = Place<Core>;
