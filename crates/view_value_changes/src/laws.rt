//! Laws of the codes of signals. Each function states one, and does nothing.
ghost use Rattle.std.specs.Prelude.{◌≡◌, ℕ, ◌<◌};
ghost use Rattle.view_value_changes.specs.Code.{signal_code, code_count};

/// Different signals have different codes.
pub fn codes_differ()
    ensures { (i j : ℕ) → i < code_count → j < code_count → signal_code i ≡ signal_code j → i ≡ j }
{}
