//! The fixed lists of words.
ghost use Rattle.std.specs.Prelude.{◌≡◌, None, Some};
ghost use Rattle.toml.specs.View.{view, table_view};
ghost use Rattle.aps_model.specs.declared.shape.Free.TheVariants as free;
ghost use Rattle.aps_model.specs.declared.shape.Bankruptcy.TheVariants.{Basic};
ghost use Rattle.aps_model.specs.declared.scenario.Policy.TheVariants.{Fifo};
ghost use Rattle.aps_scenario.specs.Row.{word, row_word, value_of, optional};
ghost use Rattle.aps_scenario.specs.Sizes.{row_free, row_bankruptcy};
ghost use Rattle.aps_scenario.specs.Threads.{row_policy};
ghost use Rattle.aps_scenario.specs.Commands.{row_kind};
ghost use Rattle.aps_scenario.specs.Words as spec;

use crate::key::Key;
use crate::kind::Kind;
use crate::refusal::{Finding, Place};
use crate::row::{at_key, value_at};
use aps_model::{Bankruptcy, Free, Policy};
use toml::{Table, Value};

/// What a command is, by its `do`.
#[derive(Clone, Copy)]
pub enum CommandKind {
    Create,
    Modify,
    Lookup,
    QueryPartition,
    QueryThread,
    QueryParameters,
    SetParameters,
    Statistics,
    MarkCritical,
    ClearCritical,
}

fn free(value: &Value) -> Result<Free, Kind>
    ensures { result ≡ word spec.free_words (view value.now) }
{
    match value.as_str() {
        None => Err(Kind::WrongKind),
        Some("priority") => Ok(Free::Priority),
        Some("ratio") => Ok(Free::Ratio),
        Some(_) => Err(Kind::OutOfRange),
    }
}

fn bankruptcy(value: &Value) -> Result<Bankruptcy, Kind>
    ensures { result ≡ word spec.bankruptcy_words (view value.now) }
{
    match value.as_str() {
        None => Err(Kind::WrongKind),
        Some("basic") => Ok(Bankruptcy::Basic),
        Some("cancel") => Ok(Bankruptcy::Cancel),
        Some("reboot") => Ok(Bankruptcy::Reboot),
        Some(_) => Err(Kind::OutOfRange),
    }
}

fn policy(value: &Value) -> Result<Policy, Kind>
    ensures { result ≡ word spec.policy_words (view value.now) }
{
    match value.as_str() {
        None => Err(Kind::WrongKind),
        Some("fifo") => Ok(Policy::Fifo),
        Some("rr") => Ok(Policy::Rr),
        Some(_) => Err(Kind::OutOfRange),
    }
}

/// The kind of command that a value names.
pub fn command_kind(value: &Value) -> Result<CommandKind, Kind>
    ensures { result ≡ word spec.command_words (view value.now) }
{
    let Some(text) = value.as_str() else {
        return Err(Kind::WrongKind);
    };
    match text {
        "create" => Ok(CommandKind::Create),
        "modify" => Ok(CommandKind::Modify),
        "lookup" => Ok(CommandKind::Lookup),
        "query_partition" => Ok(CommandKind::QueryPartition),
        "query_thread" => Ok(CommandKind::QueryThread),
        "query_parameters" => Ok(CommandKind::QueryParameters),
        "set_parameters" => Ok(CommandKind::SetParameters),
        "statistics" => Ok(CommandKind::Statistics),
        "mark_critical" => Ok(CommandKind::MarkCritical),
        "clear_critical" => Ok(CommandKind::ClearCritical),
        _ => Err(Kind::OutOfRange),
    }
}

/// To whom free time goes: by priority where it isn't given.
pub fn free_at(table: &Table, place: Place) -> Result<Free, Finding>
    ensures { result ≡ value_of row_free place (table_view table.now) }
{
    let found = match value_at(table, Key::Free) {
        None => Ok(Free::Priority),
        Some(value) => free(value),
    };
    at_key(place, Key::Free, found)
}

/// To whom free time goes, where it is given.
pub fn optional_free_at(table: &Table, place: Place) -> Result<Option<Free>, Finding>
    ensures { result ≡ value_of (optional row_free) place (table_view table.now) }
{
    let found = match value_at(table, Key::Free) {
        None => Ok(None),
        Some(value) => match free(value) {
            Ok(free) => Ok(Some(free)),
            Err(kind) => Err(kind),
        },
    };
    at_key(place, Key::Free, found)
}

/// What follows where a critical budget is exceeded: the basic policy where it isn't given.
pub fn bankruptcy_at(table: &Table, place: Place) -> Result<Bankruptcy, Finding>
    ensures { result ≡ value_of row_bankruptcy place (table_view table.now) }
{
    let found = match value_at(table, Key::Bankruptcy) {
        None => Ok(Bankruptcy::Basic),
        Some(value) => bankruptcy(value),
    };
    at_key(place, Key::Bankruptcy, found)
}

/// What follows where a critical budget is exceeded, where it is given.
pub fn optional_bankruptcy_at(table: &Table, place: Place) -> Result<Option<Bankruptcy>, Finding>
    ensures { result ≡ value_of (optional row_bankruptcy) place (table_view table.now) }
{
    let found = match value_at(table, Key::Bankruptcy) {
        None => Ok(None),
        Some(value) => match bankruptcy(value) {
            Ok(bankruptcy) => Ok(Some(bankruptcy)),
            Err(kind) => Err(kind),
        },
    };
    at_key(place, Key::Bankruptcy, found)
}

/// The policy of a thread: first in, first out where it isn't given.
pub fn policy_at(table: &Table, place: Place) -> Result<Policy, Finding>
    ensures { result ≡ value_of row_policy place (table_view table.now) }
{
    let found = match value_at(table, Key::Policy) {
        None => Ok(Policy::Fifo),
        Some(value) => policy(value),
    };
    at_key(place, Key::Policy, found)
}

/// The kind of a command, which has to be there.
pub fn kind_at(table: &Table, place: Place) -> Result<CommandKind, Finding>
    ensures { result ≡ value_of row_kind place (table_view table.now) }
{
    let found = match value_at(table, Key::Do) {
        None => Err(Kind::Missing),
        Some(value) => command_kind(value),
    };
    at_key(place, Key::Do, found)
}
