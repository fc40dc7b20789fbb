//! What seen lists mean: laws over the definitions alone.
ghost use Rattle.std.specs.Prelude.{◌≡◌, ℕ, ◌+◌};
ghost use Rattle.aps_core.specs.Run.{Run};
ghost use Rattle.aps_model.specs.Seat.{IsSeen, own_entries};
ghost use Rattle.aps_lock.specs.Seats.{HasSeen, SeatData};

/// What a seat has seen is the beginning of the run's history, which has no other entries of the seat's processors.
pub fn seen_has_own_entries()
    ensures seen { (seat : SeatData) (run : Run) → HasSeen seat run → IsSeen seat.seen.entries run.entries }
    ensures own { (seat : SeatData) (run : Run)
        → HasSeen seat run
        → own_entries seat.first seat.last run.entries ≡ own_entries seat.first seat.last seat.seen.entries }
{}
