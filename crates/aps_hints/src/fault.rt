//! Where a text stops being TOML.
use crate::line::Line;
use crate::value::push_number;
use aps_model::NoMemory;
use std::alloc::Global;
use toml::de::Error;

/// Writes where these bytes stop being a text, or that text a TOML document, and why.
pub fn push_fault(
    alloc: Global,
    line: &mut Line,
    bytes: &[u8],
    error: &Error,
) -> Result<(), NoMemory> {
    match std::str::from_utf8(bytes) {
        Ok(_) => {
            push_end(
                alloc,
                line,
                bytes,
                error.span().map_or(0, |span| span.start),
            )?;
            line.push_text(b": ")?;
            line.push_text(error.message().as_bytes())
        }
        Err(error) => {
            push_end(alloc, line, bytes, error.valid_up_to())?;
            line.push_text(b": no UTF-8")
        }
    }
}

/// Writes where a document ends too soon: the line and the column of a place.
fn push_end(alloc: Global, line: &mut Line, bytes: &[u8], place: usize) -> Result<(), NoMemory> {
    line.push_text(b"it stops being one at ")?;
    push_position(alloc, line, bytes, place)
}

/// Writes the line and the column of a place, both from 1, columns in bytes.
pub fn push_position(
    alloc: Global,
    line: &mut Line,
    bytes: &[u8],
    place: usize,
) -> Result<(), NoMemory> {
    let before = &bytes[..place.min(bytes.len())];
    let newlines = before.iter().filter(|byte| **byte == b'\n').count();
    let behind = before
        .iter()
        .rev()
        .take_while(|byte| **byte != b'\n')
        .count();
    line.push_text(b"line ")?;
    push_number(alloc, line, newlines.saturating_add(1))?;
    line.push_text(b", column ")?;
    push_number(alloc, line, behind.saturating_add(1))
}
