//! The fields of a line, read one after the other.
ghost use Rattle.std.specs.Prelude.{◌≡◌, ◌≤◌, IfOk, IfSome, Option};
ghost use Rattle.aps_text.specs.Reader.{ReadsAs, word_at, digits_at, number_at};
ghost use Rattle.aps_text.specs.Fields.{option_at, mark_at};
ghost use Rattle.aps_model.specs.Limits.{last_moment, last_thread};

use aps_model::limits::LAST_THREAD;

/// A value and the bytes behind it, or the bytes from the first one on that fits nothing.
pub type Reading<'a, T> = Result<(T, &'a [u8]), &'a [u8]>;

/// The bytes behind this word.
#[inline(always)]
pub fn word<'a>(bytes: &'a [u8], word: &[u8]) -> Result<&'a [u8], &'a [u8]>
    ensures { ReadsAs (λ rest. rest.now) result (word_at word.now bytes.now) }
{
    let mut rest = bytes;
    for expected in word {
        let [byte, after @ ..] = rest else {
            return Err(rest);
        };
        if byte != expected {
            return Err(rest);
        }
        rest = after;
    }
    Ok(rest)
}

/// A number of at most `most`, without a leading zero, and the byte behind it.
#[inline(always)]
pub fn number(bytes: &[u8], most: u64, stop: u8) -> Reading<u64>
    requires { most ≤ last_moment }
    ensures read { ReadsAs (λ x. (x.0, x.1.now)) result (number_at most stop bytes.now) }
    ensures within { IfOk result (λ x. x.0 ≤ most) }
{
    match bytes {
        [b'0', rest @ ..] => Ok((0, word(rest, &[stop])?)),
        [digit @ b'1'..=b'9', rest @ ..] if u64::from(*digit - b'0') <= most => {
            digits(rest, most, stop, u64::from(*digit - b'0'))
        }
        _ => Err(bytes),
    }
}

// The digits that follow those of `first`, and the byte behind them.
#[inline(always)]
fn digits(bytes: &[u8], most: u64, stop: u8, first: u64) -> Reading<u64>
    requires within { first ≤ most }
    requires most { most ≤ last_moment }
    ensures read { ReadsAs (λ x. (x.0, x.1.now)) result (digits_at most stop first bytes.now) }
    ensures within { IfOk result (λ x. x.0 ≤ most) }
{
    let mut value = first;
    let mut rest = bytes;
    while let [byte, after @ ..] = rest {
        if *byte == stop {
            return Ok((value, after));
        }
        if !byte.is_ascii_digit() {
            return Err(rest);
        }
        let more = value * 10 + u64::from(*byte - b'0');
        if more > most {
            return Err(rest);
        }
        value = more;
        rest = after;
    }
    Err(rest)
}

/// A number of at most `most`, or `-`, and the byte behind it.
#[inline(always)]
pub fn number_or_none(bytes: &[u8], most: u64, stop: u8) -> Reading<Option<u64>>
    requires { most ≤ last_moment }
    ensures read { ReadsAs (λ x. (x.0, x.1.now)) result (option_at most stop bytes.now) }
    ensures within { IfOk result (λ x. IfSome x.0 (λ n. n ≤ most)) }
{
    if let [b'-', rest @ ..] = bytes {
        return Ok((None, word(rest, &[stop])?));
    }
    let (number, rest) = number(bytes, most, stop)?;
    Ok((Some(number), rest))
}

/// The number of a thread, and a space.
#[inline(always)]
pub fn thread(bytes: &[u8]) -> Reading<u64>
    ensures read { ReadsAs (λ x. (x.0, x.1.now)) result (number_at last_thread 32 bytes.now) }
    ensures within { IfOk result (λ x. x.0 ≤ last_thread) }
{
    number(bytes, LAST_THREAD, b' ')
}

/// The mark of critical time, and a space.
#[inline(always)]
pub fn mark(bytes: &[u8]) -> Reading<bool>
    ensures { ReadsAs (λ x. (x.0, x.1.now)) result (mark_at bytes.now) }
{
    if let [b'c', rest @ ..] = bytes {
        return Ok((true, word(rest, b" ")?));
    }
    Ok((false, word(bytes, b"- ")?))
}
