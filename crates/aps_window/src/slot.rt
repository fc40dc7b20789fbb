//! The slot of one tick.
ghost use Rattle.std.specs.Prelude.{◌≡◌, ◌+◌, ◌≤◌};
ghost use Rattle.aps_window.specs.Slots.{slot_billed};

/// What a partition was billed in a tick or in several, in ns, and how much of it is critical.
#[derive(Clone, Copy)]
pub struct Slot {
    pub billed: u64,
    pub critical: u64,
}

impl Slot {
    /// Nothing billed.
    pub const EMPTY: Slot = Slot {
        billed: 0,
        critical: 0,
    };

    /// Bills so many ns more, critical or not.
    pub fn bill(&mut self, ns: u64, critical: bool)
        requires billed { self.old.billed + ns ≤ 1000000000000 }
        requires critical { self.old.critical ≤ self.old.billed }
        ensures { self.new ≡ slot_billed self.old ns critical }
    {
        self.billed += ns;
        if critical {
            self.critical += ns;
        }
    }
}
