//! A scenario as text.
ghost use Rattle.std.specs.Prelude.{◌≡◌, Ok, IfOk, OnOk, string_bytes};
ghost use Rattle.toml.specs.Data.{no_members};
ghost use Rattle.toml.specs.View.{table_view};
ghost use Rattle.aps_model.specs.Shape.{IsShape};
ghost use Rattle.aps_model.specs.Valid.{IsScenario};
ghost use Rattle.aps_scenario.specs.PrintedScenario.{shape_members, scenario_members};
ghost use Rattle.aps_scenario.specs.Reading.{reads};
ghost use Rattle.aps_scenario.specs.ScenarioText.{scenario_text};

mod commands;
mod operations;
mod partitions;
mod table;
mod threads;
mod words;

use crate::key::Key;
use crate::printing::commands::commands_value;
use crate::printing::partitions::partitions_value;
use crate::printing::table::{put, put_number, put_text, put_truth};
use crate::printing::threads::{channels_value, threads_value};
use crate::printing::words::{bankruptcy_word, free_word};
use aps_model::{NoMemory, Scenario, Shape};
use std::alloc::{AllocError, Global};
use toml::Table;

/// Puts the sizes and the policies into an empty table: version 1 counts budgets in parts of 100, version 2 in parts of 1,000.
fn put_shape(alloc: Global, table: &mut Table, shape: &Shape) -> Result<(), NoMemory>
    requires shape { IsShape shape.now }
    requires empty { table_view table.old ≡ no_members }
    ensures { OnOk result (table_view table.new ≡ shape_members shape.now) }
{
    let version = if shape.parts == 100 { 1 } else { 2 };
    put_number(alloc, table, Key::Version, version)?;
    put_number(alloc, table, Key::Cpus, u64::from(shape.cpus))?;
    put_number(alloc, table, Key::Tick, shape.tick)?;
    put_number(alloc, table, Key::Window, u64::from(shape.window))?;
    put_number(alloc, table, Key::Ticks, u64::from(shape.ticks))?;
    put_number(alloc, table, Key::CallNs, shape.call_ns)?;
    put_text(alloc, table, Key::Free, free_word(shape.free))?;
    put_truth(alloc, table, Key::Limit, shape.limit)?;
    put_text(
        alloc,
        table,
        Key::Bankruptcy,
        bankruptcy_word(shape.bankruptcy),
    )
}

/// Puts the partitions, the channels, the threads and the commands behind the sizes and the policies.
fn put_lists(alloc: Global, table: &mut Table, scenario: &Scenario) -> Result<(), NoMemory>
    requires { table_view table.old ≡ shape_members scenario.now.shape }
    ensures { OnOk result (table_view table.new ≡ scenario_members scenario.now) }
{
    let partitions = partitions_value(alloc, scenario)?;
    put(alloc, table, Key::Partition, partitions)?;
    let channels = channels_value(alloc, scenario.channels())?;
    put(alloc, table, Key::Channel, channels)?;
    let threads = threads_value(alloc, scenario)?;
    put(alloc, table, Key::Thread, threads)?;
    let commands = commands_value(alloc, scenario)?;
    put(alloc, table, Key::Command, commands)
}

fn scenario_table(alloc: Global, scenario: &Scenario) -> Result<Table, NoMemory>
    ensures table { IfOk result (λ table. table_view table ≡ scenario_members scenario.now) }
    ensures valid { OnOk result (IsScenario scenario.now) }
{
    let mut table = Table::new(alloc);
    put_shape(alloc, &mut table, scenario.shape())?;
    put_lists(alloc, &mut table, scenario)?;
    Ok(table)
}

/// The one text of the scenario, which reads as the scenario: every key is written, in a fixed order and form, a budget
/// as it is before the partition's children take theirs. `NoMemory` comes where memory runs out.
pub fn print(alloc: Global, scenario: &Scenario) -> Result<String, NoMemory>
    ensures reads_back { IfOk result (λ text. reads (string_bytes text) ≡ Ok scenario.now) }
    ensures text { IfOk result (λ text. string_bytes text ≡ scenario_text scenario.now) }
{
    let table = scenario_table(alloc, scenario)?;
    match toml::table_to_string_pretty(alloc, &table) {
        Ok(text) => Ok(text),
        // The table has no date, so that memory ran out.
        Err(_) => Err(AllocError),
    }
}
