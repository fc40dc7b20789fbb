//! Numbers as words.
ghost use Rattle.std.specs.Prelude.{◌≡◌, IfSome};
ghost use Rattle.std.specs.List.{list_all};
ghost use Rattle.std.specs.Char.{is_ascii_digit};
ghost use Rattle.aps_model.specs.Limits.{IsIn};
ghost use Rattle.aps_words.specs.Number as spec;

/// Whether these are decimal digits, without a sign, and without a leading zero unless it is `0`.
fn is_numeral(digits: &[u8]) -> bool
    ensures { result ≡ spec.is_numeral digits.now }
{
    are_digits(digits) && !has_leading_zero(digits) && !digits.is_empty()
}

fn has_leading_zero(digits: &[u8]) -> bool
    ensures { result ≡ spec.has_leading_zero digits.now }
{
    matches!(digits, [b'0', _, ..])
}

fn are_digits(bytes: &[u8]) -> bool
    ensures { result ≡ list_all is_ascii_digit bytes.now }
{
    bytes.iter().all(|byte| byte.is_ascii_digit())
}

/// The number that the word is, where it is one in this range.
pub fn number_in(low: u64, high: u64, word: &str) -> Option<u64>
    ensures same { result ≡ spec.number_in low high word.now }
    ensures range { IfSome result (IsIn low high) }
{
    if !is_numeral(word.as_bytes()) {
        return None;
    }
    match word.parse::<u64>() {
        Ok(n) if low <= n && n <= high => Some(n),
        _ => None,
    }
}
