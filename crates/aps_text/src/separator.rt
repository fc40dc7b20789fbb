//! Where the journal begins in a text that has a scenario before it.
ghost use Rattle.std.specs.Prelude.{◌≡◌, ◌<◌, length};
ghost use Rattle.aps_text.specs.Separator.{begins_line, journal_place, separates};

/// The line that separates a scenario from its journal, with its newline.
const SEPARATOR: &[u8] = b"--- journal\n";

/// Where a text that has a scenario, the line `--- journal` and a journal is to be cut: the scenario is the first
/// `scenario_len` bytes, and the journal begins at `journal_from`, behind the newline of the line between them.
#[derive(Clone, Copy, Debug, PartialEq, Eq)]
pub struct JournalAt {
    pub scenario_len: usize,
    pub journal_from: usize,
}

/// The first place, at the start or after a newline, where `--- journal` and a newline stand. `None` comes exactly
/// where there is no such place. It takes no memory.
pub fn journal_at(bytes: &[u8]) -> Option<JournalAt>
    ensures { result ≡ journal_place bytes.now }
{
    (0..bytes.len())
        .find(|place| separates(bytes, *place))
        .map(|place| JournalAt {
            scenario_len: place,
            journal_from: place + SEPARATOR.len(),
        })
}

// Whether the separating line stands at this place.
fn separates(bytes: &[u8], place: usize) -> bool
    requires { place < length bytes.now }
    ensures { result ≡ separates bytes.now place }
{
    begins_line(bytes, place) && bytes[place..].starts_with(SEPARATOR)
}

// Whether a line begins at this place.
fn begins_line(bytes: &[u8], place: usize) -> bool
    requires { place < length bytes.now }
    ensures { result ≡ begins_line bytes.now place }
{
    place == 0 || bytes[place - 1] == b'\n'
}
