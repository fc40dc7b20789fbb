//! Words that repeat no option and have no `--`.
ghost use Rattle.std.specs.Prelude.{◌≡◌, ◌==◌, [], map, string_bytes, IfOk, option_map};
ghost use Rattle.std.specs.List.{before_first, list_any, position};
ghost use Rattle.std.specs.Str.{bytes_eq};
ghost use Rattle.aps_words.specs.Options.{option_of};
ghost use Rattle.aps_words.specs.Plain as spec;

use std::alloc::{AllocError, Global};

fn equals_place(text: &[u8]) -> Option<usize>
    ensures { result ≡ position (λ x. x == 61) text.now }
{
    text.iter().position(|byte| *byte == b'=')
}

/// What stands before the first `=`, or all where there is none.
fn before_equals(text: &[u8]) -> &[u8]
    ensures { result.now ≡ before_first (λ x. x == 61) text.now }
{
    match equals_place(text) {
        Some(end) => &text[..end],
        None => text,
    }
}

/// The name of the option that a word begins, `--name` or `--name=value`.
fn option_name(word: &[u8]) -> Option<&[u8]>
    ensures { option_map (λ name. name.now) result ≡ option_map (λ option. option.0) (option_of word.now) }
{
    match word {
        [b'-', b'-', text @ ..] if !text.is_empty() => Some(before_equals(text)),
        _ => None,
    }
}

/// Whether no word is `--` and no option stands twice, by its name.
pub fn is_plain(alloc: Global, words: &[String]) -> Result<bool, AllocError>
    ensures { IfOk result (λ plain. plain ≡ spec.is_plain [] (map string_bytes words.now)) }
{
    let mut seen: Vec<&[u8]> = Vec::new(alloc);
    for word in words {
        if word.as_str() == "--" {
            return Ok(false);
        }
        if let Some(name) = option_name(word.as_bytes()) {
            if is_seen(&seen, name) {
                return Ok(false);
            }
            seen.push(name)?;
        }
    }
    Ok(true)
}

fn is_seen(names: &[&[u8]], name: &[u8]) -> bool
    ensures { result ≡ list_any (λ seen. bytes_eq seen.now name.now) names.now }
{
    names.iter().any(|seen| *seen == name)
}
