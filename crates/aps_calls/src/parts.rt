//! A scenario and the journal behind it, as parts of one text.
ghost use Rattle.std.specs.Prelude.{◌≡◌, ◌≤◌, length, IfSome};
ghost use Rattle.aps_text.specs.Separator.{journal_place};

use aps_text::{JournalAt, journal_at};

/// Where a scenario ends and its journal begins, if the line between them is there: both places lie in the bytes.
pub fn parted(bytes: &[u8]) -> Option<JournalAt>
    ensures same { result ≡ journal_place bytes.now }
    ensures inside { IfSome result (λ at. (at.scenario_len ≤ length bytes.now) × (at.journal_from ≤ length bytes.now)) }
{
    journal_at(bytes)
}
