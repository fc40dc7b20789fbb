//! The codes of signals.
ghost use Rattle.std.specs.Prelude.{◌≡◌, ◌<◌, ◌++◌, string_bytes, OnOk};
ghost use Rattle.view_value_changes.specs.Code as spec;

use aps_model::NoMemory;

/// How many characters stand for digits in a code: those from `!` to `~`.
const DIGITS: usize = 94;

/// The first of them.
const FIRST_DIGIT: usize = 33;

/// The code of a signal: one digit, or two, of which the second counts more. 8,930 signals have codes of their own.
pub fn add_code(out: &mut String, signal: usize) -> Result<(), NoMemory>
    ensures { OnOk result (string_bytes out.new ≡ string_bytes out.old ++ spec.signal_code signal) }
{
    out.push(digit(signal % DIGITS))?;
    if signal >= DIGITS {
        out.push(digit((signal / DIGITS - 1).min(DIGITS - 1)))?;
    }
    Ok(())
}

/// The character for a digit.
fn digit(value: usize) -> char
    requires { value < 94 }
    ensures { result ≡ spec.digit value }
{
    char::from((FIRST_DIGIT + value) as u8)
}
