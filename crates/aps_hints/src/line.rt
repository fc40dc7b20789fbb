//! A line of text for a person.
ghost use Rattle.std.specs.Prelude.{◌≡◌, ◌≤◌, ◌++◌, ◌∷◌, [], length, take, map, OnOk, true};
ghost use Rattle.std.specs.List.{list_all};
ghost use Rattle.aps_hints.specs.Line.{is_shown, shown, shown_text, cut};

use aps_model::NoMemory;
use std::alloc::Global;
use std::marker::Model;

/// The most bytes of a line.
pub const MOST_BYTES: usize = 600;

/// One line of text for a person, without a newline: printable ASCII, 600 bytes at the most. Whatever is written to it, a
/// byte that can't be shown stands there as `?`, and what is too long is cut.
#[derive(Drop)]
pub struct Line {
    bytes: Vec<u8>,
}

impl Model for Line {
    ghost use Rattle.std.specs.Prelude.{ℕ, List};
    ghost use Rattle.aps_hints.specs.Line.{IsHintLine};

    ghost Value = { List ℕ };

    ghost view = { λ line. line.bytes.items };

    ghost invariant = { λ line. IsHintLine line.bytes.items };
}

impl Line {
    /// An empty line.
    pub fn new(alloc: Global) -> Line
        ensures { result ≡ [] }
    {
        Line {
            bytes: Vec::new(alloc),
        }
    }

    /// The bytes of the line.
    pub fn as_bytes(&self) -> &[u8]
        ensures same { result.now ≡ self.now }
        ensures short { length result.now ≤ MOST_BYTES }
        ensures printable { list_all is_shown result.now ≡ true }
    {
        self.bytes.as_slice()
    }

    /// Writes one byte behind the line, as it is shown, where there is room.
    #[tactic(auto, using(crate::proofs::Cuts::cut_more, crate::proofs::Cuts::cut_full, crate::proofs::Cuts::shown_more))]
    fn push(&mut self, byte: u8) -> Result<(), NoMemory>
        ensures { OnOk result (self.new ≡ cut (self.old ++ (shown byte ∷ []))) }
    {
        if self.bytes.len() < MOST_BYTES {
            self.bytes.push(shown(byte))?;
        }
        Ok(())
    }

    /// Writes a text behind the line, each byte as it is shown, as far as there is room.
    pub fn push_text(&mut self, text: &[u8]) -> Result<(), NoMemory>
        ensures { OnOk result (self.new ≡ cut (self.old ++ shown_text text.now)) }
    {
        // the check wants the fields here, to know what the line keeps
        let _ = &self.bytes;
        for byte in text {
            self.push(*byte)?;
        }
        Ok(())
    }
}

/// The byte as it is shown.
fn shown(byte: u8) -> u8
    ensures { result ≡ shown byte }
{
    if byte >= b' ' && byte <= b'~' {
        byte
    } else {
        b'?'
    }
}
