//! How the run of a core is read.

/// How the run of a core is read: its processors, and its entries, to which each step appends at most one.
pub trait Recorded<C> {
    ghost use Rattle.aps_seats.specs.Log.{Log};

    ghost log: { Log C };
}
