//! The channels of a scenario, as the elements of an array.
ghost use Rattle.std.specs.Prelude.{◌≡◌, ◌≤◌, [], length};
ghost use Rattle.aps_model.specs.Limits.{most_channels};
ghost use Rattle.toml.specs.View.{view, table_view, array_view};
ghost use Rattle.aps_scenario.specs.Refusal.{ReadsOrFails};
ghost use Rattle.aps_scenario.specs.Channels as spec;

use crate::key::Key;
use crate::kind::Kind;
use crate::refusal::{Failure, Finding, Place};
use crate::row::{name_at, only, refuse_if, table_of, tables_at};
use aps_model::Name;
use aps_model::limits::MOST_CHANNELS;
use std::alloc::Global;
use toml::value::Array;
use toml::{Table, Value};

const CHANNEL_KEYS: [Key; 1] = [Key::Name];

/// Whether the name is one of these.
pub fn is_among(names: &[Name], name: &Name) -> bool
    ensures { result ≡ spec.is_name_among names.now name.now }
{
    names.iter().any(|other| name.text() == other.text())
}

/// The channel after these ones.
#[tactic(auto, unfolding(crate::specs::Channels::channel_read_at))]
fn next_channel(channels: &[Name], value: &Value) -> Result<Name, Finding>
    requires { length channels.now ≤ most_channels }
    ensures { result ≡ spec.next_channel channels.now (view value.now) }
{
    let place = Place::Channel(channels.len() as u16);
    let table = table_of(place, value)?;
    only(&CHANNEL_KEYS, place, table)?;
    let name = name_at(table, place, Key::Name, None)?;
    refuse_if(is_among(channels, &name), Kind::Duplicate, place, Key::Name)?;
    Ok(name)
}

/// The channels of these elements.
fn channels_of(alloc: Global, array: &Array) -> Result<Vec<Name>, Failure>
    requires { length array.now.items ≤ most_channels }
    ensures { ReadsOrFails (λ channels. channels.items) result (spec.channels_from [] (array_view array.now)) }
{
    let mut channels = Vec::new(alloc);
    for value in array {
        let name = next_channel(&channels, value)?;
        channels.push(name)?;
    }
    Ok(channels)
}

/// The channels of the top table.
#[tactic(auto, unfolding(crate::specs::Channels::channels_at, crate::specs::Elements::read_each))]
pub fn channels_at(alloc: Global, table: &Table) -> Result<Vec<Name>, Failure>
    ensures { ReadsOrFails (λ channels. channels.items) result (spec.channels_at (table_view table.now)) }
{
    match tables_at(table, Place::Top, Key::Channel, MOST_CHANNELS)? {
        Some(array) => channels_of(alloc, array),
        None => Ok(Vec::new(alloc)),
    }
}
