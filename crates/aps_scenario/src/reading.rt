//! The scenario that a text is.
ghost use Rattle.std.specs.Prelude.{◌≡◌};
ghost use Rattle.toml.specs.View.{table_view};
ghost use Rattle.aps_scenario.specs.Document.{or_told};
ghost use Rattle.aps_scenario.specs.Refusal.{ReadsOrFails, TellsScenario};
ghost use Rattle.aps_scenario.specs.Reading as spec;

use crate::channels::channels_at;
use crate::commands::commands_at;
use crate::joinable::joinable_at;
use crate::key::Key;
use crate::partitions::partitions_at;
use crate::refusal::{Failure, Place, ScenarioRefusal, no_document};
use crate::row::only;
use crate::sizes::shape_at;
use crate::threads::threads_at;
use aps_model::Scenario;
use std::alloc::Global;
use toml::Table;

const TOP_KEYS: [Key; 13] = [
    Key::Version,
    Key::Cpus,
    Key::Tick,
    Key::Window,
    Key::Ticks,
    Key::CallNs,
    Key::Free,
    Key::Limit,
    Key::Bankruptcy,
    Key::Partition,
    Key::Channel,
    Key::Thread,
    Key::Command,
];

#[tactic(auto, unfolding(crate::specs::Reading::scenario_at))]
fn scenario_at(alloc: Global, table: &Table) -> Result<Scenario, Failure>
    ensures { ReadsOrFails (λ s. s) result (spec.scenario_at (table_view table.now)) }
{
    only(&TOP_KEYS, Place::Top, table)?;
    let shape = shape_at(table)?;
    let partitions = partitions_at(alloc, shape.parts, table)?;
    let channels = channels_at(alloc, table)?;
    let joinable = joinable_at(alloc, &partitions, table)?;
    let threads = threads_at(alloc, &partitions, &channels, &joinable, table)?;
    let commands = commands_at(alloc, &shape, &threads, table)?;
    Ok(Scenario::new(shape, partitions, channels, threads, commands))
}

/// The scenario that a text is.
///
/// `Refused` has the first part of the text that breaks a rule of the format, in the one order of
/// tests that `docs/FORMATS.md` has, and how it breaks it; `not-toml -` comes exactly where the bytes
/// aren't UTF-8 or no document. `NoMemory` comes where memory runs out, and tells nothing of the text.
pub fn scenario_of(alloc: Global, bytes: &[u8]) -> Result<Scenario, ScenarioRefusal>
    ensures { TellsScenario result (spec.reads bytes.now) }
{
    match toml::table_from_slice(alloc, bytes) {
        Ok(table) => scenario_in(alloc, &table),
        Err(error) => Err(no_document(&error)),
    }
}

/// The scenario that a document's top table is, or why it is none, as it is told.
fn scenario_in(alloc: Global, table: &Table) -> Result<Scenario, ScenarioRefusal>
    ensures { TellsScenario result (or_told (spec.scenario_at (table_view table.now))) }
{
    match scenario_at(alloc, table) {
        Ok(scenario) => Ok(scenario),
        Err(Failure::NoMemory) => Err(ScenarioRefusal::NoMemory),
        Err(Failure::Found(finding)) => Err(finding.told()),
    }
}
