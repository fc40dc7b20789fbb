//! A name as text.
ghost use Rattle.std.specs.Prelude.{◌≡◌};

use aps_model::Name;
use std::str::from_utf8;

/// A name as text.
pub fn text_of(name: &Name) -> &str
    ensures { result.now ≡ name.now }
{
    match from_utf8(name.text()) {
        Ok(text) => text,
        Err(_) => unreachable!(),
    }
}
