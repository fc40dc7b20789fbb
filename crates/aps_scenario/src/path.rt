//! Paths, which stand in place.
ghost use Rattle.std.specs.Prelude.{◌≡◌, ◌+◌, ◌<◌, ◌≤◌, ◌++◌, [], ◌∷◌, length, take};
ghost use Rattle.std.specs.Fmt.{decimal};
ghost use Rattle.std.specs.List.{list_all};
ghost use Rattle.aps_model.specs.Name.{is_name_byte};
ghost use Rattle.aps_scenario.specs.Path as spec;
ghost use Rattle.aps_scenario.specs.Path.{longest_key};
ghost use Rattle.aps_scenario.specs.PathText.{longest_path};

use crate::key::Key;
use crate::refusal::{Part, Place};
use std::marker::Model;

/// Where in a text something is wrong: at most 64 bytes.
#[derive(Clone, Copy, Debug, PartialEq, Eq)]
pub struct PathText {
    bytes: [u8; 64],
    len: u8,
}

impl Model for PathText {
    ghost use Rattle.std.specs.Prelude.{ℕ, List, take, length};
    ghost use Rattle.aps_scenario.specs.PathText.{path_padded, FitsPath};

    ghost Value = { List ℕ };

    ghost view = { λ path. take path.len path.bytes };

    ghost invariant = { λ path. FitsPath path.bytes path.len };

    ghost inverse = { λ text. record { bytes = path_padded text; len = length text } };

    ghost inverse_ok = { λ path fits. Prim.rw (fits.zeros, fits.count) };
}

impl PathText {
    /// The path of the text as a whole.
    pub(crate) fn whole() -> PathText
        ensures { result ≡ spec.whole_text }
    {
        let mut bytes = [0; 64];
        bytes[0] = b'-';
        PathText { bytes, len: 1 }
    }

    /// The bytes of the path.
    pub fn text(&self) -> &[u8]
        ensures same { result.now ≡ self.now }
        ensures short { length result.now ≤ longest_path }
    {
        &self.bytes[..self.len as usize]
    }

    fn empty() -> PathText
        ensures { result ≡ [] }
    {
        PathText {
            bytes: [0; 64],
            len: 0,
        }
    }

    fn push(&mut self, byte: u8)
        requires { length self.old < longest_path }
        ensures is { self.new ≡ self.old ++ byte ∷ [] }
        ensures long { length self.new ≡ length self.old + 1 }
    {
        self.bytes[self.len as usize] = byte;
        self.len += 1;
    }

    fn push_text(&mut self, text: &[u8])
        requires { length self.old + length text.now ≤ longest_path }
        ensures is { self.new ≡ self.old ++ text.now }
        ensures long { length self.new ≡ length self.old + length text.now }
    {
        for byte in text {
            self.push(*byte);
        }
    }

    // The number in decimal.
    #[tactic(auto, using(crate::proofs::Paths::one_digit, crate::proofs::Paths::last_digit))]
    fn push_number(&mut self, number: u16)
        requires { length self.old + length (decimal number) ≤ longest_path }
        ensures is { self.new ≡ self.old ++ decimal number }
        ensures long { length self.new ≡ length self.old + length (decimal number) }
    {
        if number < 10 {
            self.push(b'0' + number as u8);
        } else {
            self.push_number(number / 10);
            self.push(b'0' + (number % 10) as u8);
        }
    }

    // An element of an array, as `thread[3]`.
    #[tactic(auto, using(crate::proofs::Paths::five_digits))]
    fn push_element(&mut self, key: Key, index: u16)
        requires { length self.old ≤ 40 }
        ensures is { self.new ≡ self.old ++ spec.element_text key index }
        ensures short { length self.new ≤ length self.old + 17 }
    {
        self.push_text(key.text().as_bytes());
        self.push(b'[');
        self.push_number(index);
        self.push(b']');
    }

    // The table as a whole.
    fn of_place(place: Place) -> PathText
        ensures is { result ≡ spec.place_text place }
        ensures short { length result ≤ 17 }
    {
        let mut path = PathText::empty();
        match place {
            Place::Top => path.push(b'-'),
            Place::Partition(i) => path.push_element(Key::Partition, i),
            Place::Channel(i) => path.push_element(Key::Channel, i),
            Place::Thread(i) => path.push_element(Key::Thread, i),
            Place::Command(i) => path.push_element(Key::Command, i),
            Place::Demand(i) => path.push_element(Key::Demand, i),
        }
        path
    }

    // What stands before a key of the table.
    fn before_key(place: Place) -> PathText
        ensures is { result ≡ spec.prefix_text place }
        ensures short { length result ≤ 18 }
    {
        if let Place::Top = place {
            return PathText::empty();
        }
        let mut path = PathText::of_place(place);
        path.push(b'.');
        path
    }

    /// The path of a part.
    pub(crate) fn of_part(part: Part) -> PathText
        ensures { result ≡ spec.path_text part }
    {
        match part {
            Part::Table(place) => PathText::of_place(place),
            Part::At(place, key) => {
                let mut path = PathText::before_key(place);
                path.push_text(key.text().as_bytes());
                path
            }
            Part::OtherKey(place, key) => {
                let mut path = PathText::before_key(place);
                path.push_text(key.text());
                path
            }
            Part::Operation(thread, index) => {
                let mut path = PathText::before_key(Place::Thread(thread));
                path.push_element(Key::Program, index);
                path
            }
        }
    }
}

/// The most bytes of a key that is told.
const MOST_KEY_BYTES: usize = 32;

/// A key that the format doesn't have, as it is told: itself where it can be printed, else `?`.
#[derive(Clone, Copy)]
pub struct KeyText {
    bytes: [u8; MOST_KEY_BYTES],
    len: u8,
}

impl KeyText {
    /// The key as it is told.
    pub fn printed(key: &str) -> KeyText
        ensures { result ≡ spec.held (spec.printed_key key.now) }
    {
        if is_printable(key.as_bytes()) {
            KeyText::of(key.as_bytes())
        } else {
            KeyText::of(b"?")
        }
    }

    // These bytes, with zeros behind them.
    fn of(key: &[u8]) -> KeyText
        requires { length key.now ≤ longest_key }
        ensures { result ≡ spec.held key.now }
    {
        let mut bytes = [0; MOST_KEY_BYTES];
        for i in 0..key.len() {
            bytes[i] = key[i];
        }
        KeyText {
            bytes,
            len: key.len() as u8,
        }
    }

    fn text(&self) -> &[u8]
        ensures is { result.now ≡ take self.now.len self.now.bytes }
        ensures short { length result.now ≤ longest_key }
    {
        let len = (self.len as usize).min(MOST_KEY_BYTES);
        &self.bytes[..len]
    }
}

fn is_printable(key: &[u8]) -> bool
    ensures { result ≡ spec.is_printable key.now }
{
    !key.is_empty() && key.len() <= 32 && has_name_bytes(key)
}

fn has_name_bytes(key: &[u8]) -> bool
    ensures { result ≡ list_all is_name_byte key.now }
{
    key.iter().all(|byte| is_name_byte(*byte))
}

fn is_name_byte(byte: u8) -> bool
    ensures { result ≡ is_name_byte byte }
{
    byte.is_ascii_alphanumeric() || byte == b'_' || byte == b'-'
}
