//! A value as a person is told it.
use crate::line::Line;
use aps_model::NoMemory;
use std::alloc::Global;
use toml::Value;

/// The most bytes of a value that are told.
const MOST_TOLD: usize = 80;

/// Writes a text, of which a long one is cut.
fn push_short(line: &mut Line, text: &[u8]) -> Result<(), NoMemory> {
    let told = &text[..text.len().min(MOST_TOLD)];
    line.push_text(told)?;
    if told.len() < text.len() {
        line.push_text(b"..")?;
    }
    Ok(())
}

/// Writes a text between quotes, as a scenario has it.
pub fn push_quoted(line: &mut Line, text: &[u8]) -> Result<(), NoMemory> {
    line.push_text(b"\"")?;
    push_short(line, text)?;
    line.push_text(b"\"")
}

/// Writes a number.
pub fn push_number(alloc: Global, line: &mut Line, number: usize) -> Result<(), NoMemory> {
    let digits = format!(in alloc; "{number}")?;
    line.push_text(digits.as_bytes())
}

/// Writes a number, which may be below zero.
pub fn push_integer(alloc: Global, line: &mut Line, number: i64) -> Result<(), NoMemory> {
    let digits = format!(in alloc; "{number}")?;
    line.push_text(digits.as_bytes())
}

/// Writes a value: a text between quotes, a number or a truth value as it is, an array by its length.
pub fn push_value(alloc: Global, line: &mut Line, value: &Value) -> Result<(), NoMemory> {
    match value {
        Value::String(text) => push_quoted(line, text.as_bytes()),
        Value::Integer(number) => push_integer(alloc, line, *number),
        Value::Boolean(true) => line.push_text(b"true"),
        Value::Boolean(false) => line.push_text(b"false"),
        Value::Float(_) => line.push_text(b"a number with a fraction or an exponent"),
        Value::Datetime(_) => line.push_text(b"a date or a time"),
        Value::Array(elements) => {
            line.push_text(b"an array of length ")?;
            push_number(alloc, line, elements.len())
        }
        Value::Table(_) => line.push_text(b"a table"),
    }
}
