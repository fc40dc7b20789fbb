//! One key of a table: its kind, its range and its default.
ghost use Rattle.std.specs.Prelude.{◌≡◌, ◌<◌, ◌≤◌, Some, None, Ok, Err, IfSome, IfNone, IfOk, option_map, option_copied, find, not, false, length, string_bytes, MatchResult};
ghost use Rattle.std.specs.BTreeMap.{keys};
ghost use Rattle.aps_model.specs.Limits.{IsIn};
ghost use Rattle.toml.specs.Data.{get_member};
ghost use Rattle.toml.specs.View.{view, table_view, array_view};
ghost use Rattle.aps_scenario.specs.Key.{key_text};
ghost use Rattle.aps_scenario.specs.Row as spec;
ghost use Rattle.aps_scenario.specs.Row.{value_of, optional};
ghost use Rattle.aps_scenario.specs.Elements.{array_of, row_array, row_tables, items_or_none};

use crate::key::Key;
use crate::kind::Kind;
use crate::path::KeyText;
use crate::refusal::{Finding, Part, Place};
use aps_model::Name;
use toml::value::Array;
use toml::{Table, Value};

fn integer(value: &Value, low: u64, high: u64, step: u64) -> Result<u64, Kind>
    requires { 0 < step }
    ensures is { result ≡ spec.integer low high step (view value.now) }
    ensures within { IfOk result (IsIn low high) }
{
    match value.as_integer() {
        None => Err(Kind::WrongKind),
        Some(z) => match u64::try_from(z) {
            Ok(n) if low <= n && n <= high && n % step == 0 => Ok(n),
            _ => Err(Kind::OutOfRange),
        },
    }
}

fn truth(value: &Value) -> Result<bool, Kind>
    ensures { result ≡ spec.truth (view value.now) }
{
    match value.as_bool() {
        Some(truth) => Ok(truth),
        None => Err(Kind::WrongKind),
    }
}

/// A text that can be a name.
pub fn name(value: &Value) -> Result<Name, Kind>
    ensures { result ≡ spec.name (view value.now) }
{
    let Some(text) = value.as_str() else {
        return Err(Kind::WrongKind);
    };
    match Name::new(text.as_bytes()) {
        Ok(name) => Ok(name),
        Err(_) => Err(Kind::BadName),
    }
}

/// An array of `least` to `most` elements.
#[tactic(auto, using(crate::proofs::Tables::items_len_view))]
pub fn array(value: &Value, least: usize, most: usize) -> Result<&Array, Kind>
    ensures is { MatchResult result
        (λ a. array_of least most (view value.now) ≡ Ok (array_view a.now))
        (λ e. array_of least most (view value.now) ≡ Err e) }
    ensures some { IfOk result (λ a. least ≤ length a.now.items) }
    ensures few { IfOk result (λ a. length a.now.items ≤ most) }
{
    let Some(array) = value.as_array() else {
        return Err(Kind::WrongKind);
    };
    if array.len() < least || array.len() > most {
        return Err(Kind::OutOfRange);
    }
    Ok(array)
}

/// The value at a key.
pub fn value_at<'a>(table: &'a Table, key: Key) -> Option<&'a Value>
    ensures some { IfSome result (λ v. get_member (key_text key) (table_view table.now) ≡ Some (view v.now)) }
    ensures none { IfNone result (get_member (key_text key) (table_view table.now) ≡ None) }
{
    table.get(key.text())
}

/// The value that was found at a key of a table, or the finding there.
pub fn at_key<T>(place: Place, key: Key, found: Result<T, Kind>) -> Result<T, Finding>
    ensures { result ≡ spec.at_key place key found }
{
    match found {
        Ok(value) => Ok(value),
        Err(kind) => Err(Finding {
            kind,
            part: Part::At(place, key),
        }),
    }
}

/// An integer from `low` to `high`, a multiple of `step`.
pub fn integer_at(
    table: &Table,
    place: Place,
    key: Key,
    low: u64,
    high: u64,
    step: u64,
    default: Option<u64>,
) -> Result<u64, Finding>
    requires step { 0 < step }
    requires default { IfSome default (IsIn low high) }
    ensures is { result ≡ value_of (spec.row_integer key low high step default) place (table_view table.now) }
    ensures within { IfOk result (IsIn low high) }
{
    let found = match value_at(table, key) {
        None => default.ok_or(Kind::Missing),
        Some(value) => integer(value, low, high, step),
    };
    at_key(place, key, found)
}

/// An integer from `low` to `high`, where the key is there.
pub fn optional_integer_at(
    table: &Table,
    place: Place,
    key: Key,
    low: u64,
    high: u64,
) -> Result<Option<u64>, Finding>
    ensures is { result ≡ value_of (optional (spec.row_integer key low high 1 None)) place (table_view table.now) }
    ensures within { IfOk result (λ found. IfSome found (IsIn low high)) }
{
    let found = match value_at(table, key) {
        None => Ok(None),
        Some(value) => match integer(value, low, high, 1) {
            Ok(n) => Ok(Some(n)),
            Err(kind) => Err(kind),
        },
    };
    at_key(place, key, found)
}

/// A truth value, which is `false` where the key is absent.
pub fn truth_at(table: &Table, place: Place, key: Key) -> Result<bool, Finding>
    ensures { result ≡ value_of (spec.row_truth key (Some false)) place (table_view table.now) }
{
    let found = match value_at(table, key) {
        None => Ok(false),
        Some(value) => truth(value),
    };
    at_key(place, key, found)
}

/// A truth value, where the key is there.
pub fn optional_truth_at(table: &Table, place: Place, key: Key) -> Result<Option<bool>, Finding>
    ensures { result ≡ value_of (optional (spec.row_truth key (Some false))) place (table_view table.now) }
{
    let found = match value_at(table, key) {
        None => Ok(None),
        Some(value) => match truth(value) {
            Ok(truth) => Ok(Some(truth)),
            Err(kind) => Err(kind),
        },
    };
    at_key(place, key, found)
}

/// A name, where the key is there or there is a default.
pub fn name_at(
    table: &Table,
    place: Place,
    key: Key,
    default: Option<Name>,
) -> Result<Name, Finding>
    ensures { result ≡ value_of (spec.row_name key default) place (table_view table.now) }
{
    let found = match value_at(table, key) {
        None => default.ok_or(Kind::Missing),
        Some(value) => name(value),
    };
    at_key(place, key, found)
}

/// An array of `least` to `most` elements, which has to be there.
pub fn array_at(
    table: &Table,
    place: Place,
    key: Key,
    least: usize,
    most: usize,
) -> Result<&Array, Finding>
    ensures is { MatchResult result
        (λ a. value_of (row_array key least most None) place (table_view table.now) ≡ Ok (array_view a.now))
        (λ e. value_of (row_array key least most None) place (table_view table.now) ≡ Err e) }
    ensures few { IfOk result (λ a. length a.now.items ≤ most) }
{
    let found = match value_at(table, key) {
        None => Err(Kind::Missing),
        Some(value) => array(value, least, most),
    };
    at_key(place, key, found)
}

/// An array of at most `most` elements, where there is one.
pub fn tables_at(
    table: &Table,
    place: Place,
    key: Key,
    most: usize,
) -> Result<Option<&Array>, Finding>
    ensures is { MatchResult result
        (λ a. value_of (row_tables key most) place (table_view table.now) ≡ Ok (items_or_none (option_map (λ v. array_view v.now) a)))
        (λ e. value_of (row_tables key most) place (table_view table.now) ≡ Err e) }
    ensures few { IfOk result (λ found. IfSome found (λ a. length a.now.items ≤ most)) }
{
    let Some(value) = value_at(table, key) else {
        return Ok(None);
    };
    match array(value, 0, most) {
        Ok(array) => Ok(Some(array)),
        Err(kind) => Err(Finding {
            kind,
            part: Part::At(place, key),
        }),
    }
}

fn is_known(known: &[Key], key: &str) -> bool
    ensures { result ≡ spec.is_known_key known.now key.now }
{
    known.iter().any(|k| key == k.text())
}

fn first_unknown<'a>(table: &'a Table, known: &[Key]) -> Option<&'a String>
    ensures { option_copied result ≡ find (λ k. not (spec.is_known_key known.now (string_bytes k))) (keys table.now) }
{
    table.keys().find(|k| !is_known(known, k.as_str()))
}

/// The first key of a table that is none of the known ones.
fn unknown_key<'a>(table: &'a Table, known: &[Key]) -> Option<&'a str>
    ensures { option_map (λ s. s.now) result ≡ spec.unknown_key known.now (table_view table.now) }
{
    match first_unknown(table, known) {
        Some(key) => Some(key.as_str()),
        None => None,
    }
}

/// Refuses the first key of a table that is none of the known ones.
pub fn only(known: &[Key], place: Place, table: &Table) -> Result<(), Finding>
    ensures { result ≡ spec.only known.now place (table_view table.now) }
{
    match unknown_key(table, known) {
        None => Ok(()),
        Some(key) => Err(Finding {
            kind: Kind::UnknownKey,
            part: Part::OtherKey(place, KeyText::printed(key)),
        }),
    }
}

/// An element of an array as the table that it has to be.
pub fn table_of<'a>(place: Place, value: &'a Value) -> Result<&'a Table, Finding>
    ensures { MatchResult result
        (λ t. spec.table_of place (view value.now) ≡ Ok (table_view t.now))
        (λ e. spec.table_of place (view value.now) ≡ Err e) }
{
    match value.as_table() {
        Some(table) => Ok(table),
        None => Err(Finding {
            kind: Kind::WrongKind,
            part: Part::Table(place),
        }),
    }
}

/// Refuses the value at a key, where a test says that it is wrong.
pub fn refuse_if(wrong: bool, kind: Kind, place: Place, key: Key) -> Result<(), Finding>
    ensures { result ≡ spec.refuse_if wrong kind place key }
{
    if wrong {
        Err(Finding {
            kind,
            part: Part::At(place, key),
        })
    } else {
        Ok(())
    }
}
