//! A closed history of live steps.
ghost use Rattle.std.specs.Prelude.{◌≡◌};
ghost use Rattle.aps_live.specs.LiveBound.{KeepsLiveBound};
ghost use Rattle.aps_live.specs.LiveHistory.{IsLive, entries_of, events_of};

use crate::event::LiveEvent;
use crate::live_core::LiveCore;
use aps_model::Entry;
use std::marker::Model;

/// A history of live steps: the entries, each with the event with which it was taken. Contracts see the run that it is of.
pub struct LiveHistory {
    pub(crate) core: LiveCore,
}

// Written out, so that it is proved here alone: a derived drop is proved again in each crate that lets a value go.
impl Drop for LiveHistory {
    fn drop(self) {
        let Self { core: _ } = self;
    }
}

impl Model for LiveHistory {
    ghost use Rattle.aps_live.specs.LiveRun.{LiveRun};

    ghost Value = { LiveRun };

    ghost view = { λ h. h.core };
}

impl LiveHistory {
    /// The entries, in the order in which they were taken. The history is a live one, and keeps the
    /// live bound.
    pub fn entries(&self) -> &[Entry]
        ensures same { result.now ≡ entries_of self.now.steps }
        ensures live { IsLive self.now.setup.scenario self.now.steps }
        ensures bound { KeepsLiveBound self.now.setup.scenario (entries_of self.now.steps) }
    {
        self.core.entries()
    }

    /// As many events: with the one at its place each entry was taken.
    pub fn events(&self) -> &[LiveEvent]
        ensures { result.now ≡ events_of self.now.steps }
    {
        self.core.events()
    }
}
