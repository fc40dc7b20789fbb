//! Where a part of a text begins.
use crate::scan::{Entry, entry_of, next_header, skip_blank, skip_value};
use crate::spot::Spot;

/// A table in an array.
#[derive(Clone, Copy)]
enum Found<'a> {
    /// It begins with a head, and its keys stand behind that.
    Headed { at: &'a [u8], keys: &'a [u8] },
    /// It is a value in an array.
    Inline { at: &'a [u8] },
}

/// How many bytes of the text stand before the part to which the path leads: before a key, or before a table or an element
/// of an array. Nothing comes where the text has no such part, and for some parts that are written in an unusual way.
pub fn place_of(text: &[u8], spot: &Spot<'_>) -> Option<usize> {
    let part = part_of(skip_mark(text), spot)?;
    text.len().checked_sub(part.len())
}

/// What stands behind the mark of byte order with which a text may begin.
fn skip_mark(text: &[u8]) -> &[u8] {
    match text {
        [0xEF, 0xBB, 0xBF, behind @ ..] => behind,
        _ => text,
    }
}

/// The part to which the path leads, and what stands behind it.
fn part_of<'a>(text: &'a [u8], spot: &Spot<'_>) -> Option<&'a [u8]> {
    let Some((array, index)) = spot.table else {
        return top_part(text, spot.key?);
    };
    let table = table_at(text, array, index)?;
    let Some(key) = spot.key else {
        return Some(table.at());
    };
    let (at, entry) = entry_at(table.keys()?, key)?;
    match spot.element {
        Some(element) => element_at(entry.value?, element),
        None => Some(at),
    }
}

impl<'a> Found<'a> {
    fn at(self) -> &'a [u8] {
        match self {
            Found::Headed { at, .. } | Found::Inline { at } => at,
        }
    }

    /// The keys of the table, and what stands behind them.
    fn keys(self) -> Option<&'a [u8]> {
        match self {
            Found::Headed { keys, .. } => Some(keys),
            Found::Inline { at } => match at {
                [b'{', keys @ ..] => Some(keys),
                _ => None,
            },
        }
    }
}

/// A key of the top table, or the head of a table of this name.
fn top_part<'a>(text: &'a [u8], key: &str) -> Option<&'a [u8]> {
    if let Some((at, _)) = entry_at(text, key) {
        return Some(at);
    }
    let mut rest = text;
    for _ in 0..text.len() {
        let header = next_header(rest)?;
        if header.name == key.as_bytes() {
            return Some(header.at);
        }
        rest = header.behind;
    }
    None
}

/// The table of this index in the array at a key of the top table.
fn table_at<'a>(text: &'a [u8], array: &str, index: usize) -> Option<Found<'a>> {
    match entry_at(text, array) {
        Some((_, entry)) => {
            let at = element_at(entry.value?, index)?;
            Some(Found::Inline { at })
        }
        None => headed_table(text, array, index),
    }
}

/// The table of this index in an array whose tables begin with heads.
fn headed_table<'a>(text: &'a [u8], array: &str, index: usize) -> Option<Found<'a>> {
    let mut rest = text;
    let mut before = index;
    for _ in 0..text.len() {
        let header = next_header(rest)?;
        if header.is_element && header.name == array.as_bytes() {
            if before == 0 {
                return Some(Found::Headed {
                    at: header.at,
                    keys: header.behind,
                });
            }
            before = before.saturating_sub(1);
        }
        rest = header.behind;
    }
    None
}

/// The entry of this key among those with which the text begins, and where it begins.
fn entry_at<'a>(text: &'a [u8], key: &str) -> Option<(&'a [u8], Entry<'a>)> {
    let mut rest = text;
    for _ in 0..text.len() {
        rest = skip_blank(rest);
        if matches!(rest, [b'[' | b'}', ..]) {
            return None;
        }
        let entry = entry_of(rest)?;
        if entry.name == key.as_bytes() {
            return Some((rest, entry));
        }
        rest = entry.behind;
    }
    None
}

/// The element of this index in an array.
fn element_at(array: &[u8], index: usize) -> Option<&[u8]> {
    let [b'[', inside @ ..] = array else {
        return None;
    };
    let mut rest = skip_blank(inside);
    for _ in 0..index {
        rest = skip_blank(skip_value(rest));
    }
    match rest {
        [] | [b']', ..] => None,
        _ => Some(rest),
    }
}
