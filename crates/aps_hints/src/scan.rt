//! The pieces of a TOML document, told apart by their bytes: for the place of a part. Each function is given the rest of a
//! text, and hands out a later rest. Of bytes that are no TOML document nothing is said.

/// What stands behind blanks, newlines, comments and commas.
pub fn skip_blank(text: &[u8]) -> &[u8] {
    let mut rest = text;
    for _ in 0..text.len() {
        match rest {
            [b' ' | b'\t' | b'\r' | b'\n' | b',', behind @ ..] => rest = behind,
            [b'#', behind @ ..] => rest = skip_line(behind),
            _ => return rest,
        }
    }
    rest
}

/// The newline that ends the line, and what stands behind it.
pub fn skip_line(text: &[u8]) -> &[u8] {
    let mut rest = text;
    for _ in 0..text.len() {
        match rest {
            [b'\n', ..] | [] => return rest,
            [_, behind @ ..] => rest = behind,
        }
    }
    rest
}

/// What stands behind the text between quotes with which this begins.
fn skip_string(text: &[u8]) -> &[u8] {
    match text {
        [b'"', b'"', b'"', behind @ ..] => behind_long(behind, b'"'),
        [b'\'', b'\'', b'\'', behind @ ..] => behind_long(behind, b'\''),
        [quote, behind @ ..] => behind_quote(behind, *quote),
        [] => text,
    }
}

/// What stands behind the quote that ends a text of one line.
fn behind_quote(text: &[u8], quote: u8) -> &[u8] {
    let mut rest = text;
    for _ in 0..text.len() {
        match rest {
            [b'\\', _, behind @ ..] if quote == b'"' => rest = behind,
            [first, behind @ ..] if *first == quote => return behind,
            [_, behind @ ..] => rest = behind,
            [] => return rest,
        }
    }
    rest
}

/// What stands behind the three quotes that end a text of several lines.
fn behind_long(text: &[u8], quote: u8) -> &[u8] {
    let mut rest = text;
    for _ in 0..text.len() {
        match rest {
            [b'\\', _, behind @ ..] if quote == b'"' => rest = behind,
            [first, second, third, behind @ ..]
                if *first == quote && *second == quote && *third == quote => {
                return skip_quotes(behind, quote);
            }
            [_, behind @ ..] => rest = behind,
            [] => return rest,
        }
    }
    rest
}

/// What stands behind up to two quotes: the text may end with them before the three that end it.
fn skip_quotes(text: &[u8], quote: u8) -> &[u8] {
    match text {
        [first, second, behind @ ..] if *first == quote && *second == quote => behind,
        [first, behind @ ..] if *first == quote => behind,
        _ => text,
    }
}

/// What stands behind the value with which this begins.
pub fn skip_value(text: &[u8]) -> &[u8] {
    let mut rest = text;
    let mut depth: usize = 0;
    for _ in 0..text.len() {
        match rest {
            [b',' | b'\n' | b'#' | b']' | b'}', ..] if depth == 0 => return rest,
            [b'[' | b'{', behind @ ..] => {
                depth = depth.saturating_add(1);
                rest = behind;
            }
            [b']' | b'}', behind @ ..] => {
                depth = depth.saturating_sub(1);
                rest = behind;
            }
            _ => rest = skip_piece(rest),
        }
    }
    rest
}

/// What stands behind the text between quotes, the comment or the byte with which this begins.
fn skip_piece(text: &[u8]) -> &[u8] {
    match text {
        [b'"' | b'\'', ..] => skip_string(text),
        [b'#', ..] => skip_line(text),
        [_, behind @ ..] => behind,
        [] => text,
    }
}

/// A key, as far as its first dot, and what stands behind.
#[derive(Clone, Copy)]
pub struct KeyPart<'a> {
    pub name: &'a [u8],
    pub behind: &'a [u8],
}

/// The key with which this begins, between quotes or not. One with escapes is taken as it is written.
pub fn key_part(text: &[u8]) -> Option<KeyPart<'_>> {
    match text {
        [quote, behind @ ..] if *quote == b'"' || *quote == b'\'' => quoted_key(behind, *quote),
        _ => bare_key(text),
    }
}

fn quoted_key(text: &[u8], quote: u8) -> Option<KeyPart<'_>> {
    let len = text.iter().take_while(|byte| **byte != quote).count();
    let name = text.get(..len)?;
    match text.get(len..)? {
        [_, behind @ ..] => Some(KeyPart { name, behind }),
        [] => None,
    }
}

fn bare_key(text: &[u8]) -> Option<KeyPart<'_>> {
    let len = text.iter().take_while(|byte| is_key_byte(**byte)).count();
    if len == 0 {
        return None;
    }
    let name = text.get(..len)?;
    let behind = text.get(len..)?;
    Some(KeyPart { name, behind })
}

fn is_key_byte(byte: u8) -> bool {
    byte.is_ascii_alphanumeric() || byte == b'_' || byte == b'-'
}

/// A key and its value.
#[derive(Clone, Copy)]
pub struct Entry<'a> {
    /// The key, as far as its first dot.
    pub name: &'a [u8],
    /// The value, and what stands behind it; nothing where the key has a dot.
    pub value: Option<&'a [u8]>,
    /// What stands behind the value.
    pub behind: &'a [u8],
}

/// The key and the value with which this begins.
pub fn entry_of(text: &[u8]) -> Option<Entry<'_>> {
    let key = key_part(text)?;
    let sign = skip_to_sign(key.behind);
    let value = match sign {
        [_, value @ ..] => skip_blank(value),
        [] => return None,
    };
    let has_dot = matches!(skip_blank(key.behind), [b'.', ..]);
    Some(Entry {
        name: key.name,
        value: if has_dot { None } else { Some(value) },
        behind: skip_value(value),
    })
}

/// The sign `=` behind a key, and what stands behind it.
fn skip_to_sign(text: &[u8]) -> &[u8] {
    let mut rest = text;
    for _ in 0..text.len() {
        match rest {
            [b'=', ..] | [] => return rest,
            _ => rest = skip_piece(rest),
        }
    }
    rest
}

/// The head of a table, as `[name]` or `[[name]]`.
#[derive(Clone, Copy)]
pub struct Header<'a> {
    /// The head, and what stands behind.
    pub at: &'a [u8],
    /// The name, as far as its first dot.
    pub name: &'a [u8],
    /// Whether it begins an element of the array of this name.
    pub is_element: bool,
    /// What stands behind its line.
    pub behind: &'a [u8],
}

/// The next head of a table.
pub fn next_header(text: &[u8]) -> Option<Header<'_>> {
    let mut rest = text;
    for _ in 0..text.len() {
        rest = skip_blank(rest);
        match rest {
            [b'[', ..] => return header_of(rest),
            _ => rest = entry_of(rest)?.behind,
        }
    }
    None
}

fn header_of(text: &[u8]) -> Option<Header<'_>> {
    let (inside, is_double) = match text {
        [b'[', b'[', inside @ ..] => (inside, true),
        [_, inside @ ..] => (inside, false),
        [] => return None,
    };
    let key = key_part(skip_blank(inside))?;
    let ends = matches!(skip_blank(key.behind), [b']', ..]);
    Some(Header {
        at: text,
        name: key.name,
        is_element: is_double && ends,
        behind: skip_line(text),
    })
}
