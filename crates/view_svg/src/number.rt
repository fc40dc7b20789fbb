//! Numbers in texts.
ghost use Rattle.std.specs.Prelude.{◌≡◌, ◌++◌, ◌≤◌, length, string_bytes, OnOk};
ghost use Rattle.std.specs.Fmt.{decimal};
ghost use Rattle.view_svg.specs.Number as spec;

use aps_model::NoMemory;
use std::fmt::Write;

/// A number of units of which so many powers of ten are a whole, as a decimal number with exactly so many places.
pub fn add_decimal(out: &mut String, value: u128, places: u8) -> Result<(), NoMemory>
    ensures { OnOk result (string_bytes out.new ≡ string_bytes out.old ++ spec.with_places value places) }
{
    let whole = without_digits(value, places);
    write!(out, "{whole}")?;
    if places == 0 {
        return Ok(());
    }
    out.push_str(".")?;
    add_last_digits(out, value, places)
}

/// The number without its last digits, of which so many are left out.
pub fn without_digits(value: u128, count: u8) -> u128
    ensures { result ≡ spec.without_digits value count }
{
    if count == 0 {
        value
    } else {
        without_digits(value / 10, count - 1)
    }
}

/// So many of the last digits.
fn add_last_digits(out: &mut String, value: u128, count: u8) -> Result<(), NoMemory>
    ensures { OnOk result (string_bytes out.new ≡ string_bytes out.old ++ spec.last_digits value count) }
{
    if count == 0 {
        return Ok(());
    }
    add_last_digits(out, value / 10, count - 1)?;
    let digit = value % 10;
    write!(out, "{digit}")
}

/// How many digits the number has.
pub fn digits_of(value: u64) -> u8
    ensures same { result ≡ length (decimal value) }
    ensures some { 1 ≤ result }
    ensures few { result ≤ 20 }
{
    if value < 10 {
        1
    } else {
        digits_of(value / 10) + 1
    }
}

/// The part of the whole in percent with one place, rounded down, and the sign; a dash where there is no whole.
pub fn add_percent(out: &mut String, part: u64, whole: u128) -> Result<(), NoMemory>
    ensures { OnOk result (string_bytes out.new ≡ string_bytes out.old ++ spec.percent_text part whole) }
{
    if whole == 0 {
        return out.push_str("- %");
    }
    add_decimal(out, u128::from(part) * 1000 / whole, 1)?;
    out.push_str(" %")
}

/// A moment or a length (ns) in milliseconds, with as few places as are exact.
pub fn add_ms(out: &mut String, ns: u64) -> Result<(), NoMemory>
    ensures { OnOk result (string_bytes out.new ≡ string_bytes out.old ++ spec.trimmed ns 6) }
{
    add_trimmed(out, u128::from(ns), 6)
}

/// A decimal number with so many places, without the zeros at its end, nor the point where nothing is left behind it.
fn add_trimmed(out: &mut String, value: u128, places: u8) -> Result<(), NoMemory>
    ensures { OnOk result (string_bytes out.new ≡ string_bytes out.old ++ spec.trimmed value places) }
{
    if places > 0 && value % 10 == 0 {
        add_trimmed(out, value / 10, places - 1)
    } else {
        add_decimal(out, value, places)
    }
}
