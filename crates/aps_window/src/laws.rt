//! What the bills of a window have to do with the entries of a history.
ghost use Rattle.std.specs.Prelude.{◌≡◌, ℕ, List};
ghost use Rattle.aps_model.specs.declared.entry.Entry.{Entry};
ghost use Rattle.aps_model.specs.Usage.{critical_used, used};
ghost use Rattle.aps_window.specs.Bills.{bills_critical, bills_used};
ghost use Rattle.aps_window.specs.Entries.{AreInOneTick, bills_of};

/// Where no entry crosses a boundary, the bills of the entries give each partition in any ticks what the entries bill it
/// there, and as much critical time. A window that stands for these bills thus counts what the history has.
pub fn bills_are_entries()
    ensures used { (tick : ℕ) (h : List Entry) (p a b : ℕ) → AreInOneTick tick h → bills_used (bills_of tick h) p a b ≡ used tick h p a b }
    ensures critical { (tick : ℕ) (h : List Entry) (p a b : ℕ)
        → AreInOneTick tick h
        → bills_critical (bills_of tick h) p a b ≡ critical_used tick h p a b }
{}
