//! Printing a whole journal.
ghost use Rattle.std.specs.Prelude.{◌≡◌, string_bytes, All, IfOk};
ghost use Rattle.aps_model.specs.Journal.{journal_text, IsJournal};
ghost use Rattle.aps_text.specs.InTime.{IsInTime};

use crate::line::LineBuffer;
use aps_model::{Entry, NoMemory};
use std::alloc::Global;

/// The journal of these entries: the line of each, in their order. A line takes moments up to 10,000,000,000,000 ns; of
/// entries with later ones the text is made too, but is not read again. `NoMemory` comes where memory runs out.
pub fn print_journal(alloc: Global, entries: &[Entry]) -> Result<String, NoMemory>
    ensures text { IfOk result (λ text. string_bytes text ≡ journal_text entries.now) }
    // Such a text is read again.
    ensures journal { All IsInTime entries.now → IfOk result (λ text. IsJournal entries.now (string_bytes text)) }
{
    let mut text = Vec::new(alloc);
    let mut buffer = LineBuffer::new();
    for entry in entries {
        text.extend_from_slice(buffer.line(entry))?;
    }
    Ok(String::from_utf8(text).unwrap())
}
