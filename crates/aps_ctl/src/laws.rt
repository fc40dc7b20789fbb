//! What asking for the commands of a tick gives in the end.
ghost use Rattle.std.specs.Prelude.{◌≡◌, ◌≢◌, ℕ, List, [], ◌∷◌, Some, None};
ghost use Rattle.aps_model.specs.declared.command.CommandRow.{CommandRow};
ghost use Rattle.aps_ctl.specs.Pending.{all_at, given, next_at, without_next};

/// The next command of a tick is the first of its commands; without it the others of the tick are left, and all of
/// every other tick. Where there is no next one, none of the tick is left.
pub fn commands_come_once()
    ensures first { (tick : ℕ) (commands : List (ℕ × CommandRow)) (next : ℕ × CommandRow) (later : List (ℕ × CommandRow))
        → all_at tick commands ≡ next ∷ later
        → next_at tick commands ≡ Some (given next) }
    ensures others { (tick : ℕ) (commands : List (ℕ × CommandRow)) (next : ℕ × CommandRow) (later : List (ℕ × CommandRow))
        → all_at tick commands ≡ next ∷ later
        → all_at tick (without_next tick commands) ≡ later }
    ensures none { (tick : ℕ) (commands : List (ℕ × CommandRow)) → all_at tick commands ≡ [] → next_at tick commands ≡ None }
    ensures elsewhere { (tick other : ℕ) (commands : List (ℕ × CommandRow))
        → other ≢ tick
        → all_at other (without_next tick commands) ≡ all_at other commands }
{}
