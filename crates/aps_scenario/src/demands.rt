//! The demands of processor time that a text states.
ghost use Rattle.std.specs.Prelude.{◌≡◌, ◌≤◌, [], length};
ghost use Rattle.aps_model.specs.Limits.{most_demands};
ghost use Rattle.toml.specs.View.{view, table_view, array_view};
ghost use Rattle.aps_model.specs.declared.demand.Demand.{Demand};
ghost use Rattle.aps_scenario.specs.Document.{or_told};
ghost use Rattle.aps_scenario.specs.Refusal.{ReadsOrFails, TellsScenario};
ghost use Rattle.aps_scenario.specs.Demands as spec;
ghost use Rattle.aps_scenario.specs.Demands.{};

use crate::key::Key;
use crate::kind::Kind;
use crate::partitions::system_name;
use crate::refusal::{Failure, Finding, Place, ScenarioRefusal, no_document};
use crate::row::{integer_at, name_at, only, refuse_if, table_of, tables_at};
use crate::sizes::{cpus_at, parts_of, tick_at, version_at, window_at};
use aps_model::limits::MOST_CRITICAL;
use aps_model::{Bankruptcy, Demand, Free, Name, Shape};
use std::alloc::Global;
use std::marker::Model;
use toml::value::Array;
use toml::{Table, Value};

const TOP_KEYS: [Key; 5] = [Key::Version, Key::Cpus, Key::Tick, Key::Window, Key::Demand];

const DEMAND_KEYS: [Key; 2] = [Key::Name, Key::Need];

/// The most demands of a text.
const MOST_DEMANDS: usize = 31;

/// The greatest need, in ns.
const MOST_NEED: u64 = MOST_CRITICAL;

/// Demands, and the shape of a scenario that is to meet them: its parts, processors, tick and window are those of the
/// text, it has one tick, and the rest is as in a scenario where nothing is given. Every value is valid, which its type
/// keeps: the shape has its ranges, there are at most 31 demands, each of at most 64,000,000,000 ns, and no two have
/// one name, nor has any that of the root. Contracts see it as a record of plain lists.
#[derive(Drop)]
pub struct Demands {
    shape: Shape,
    demands: Vec<Demand>,
}

impl Model for Demands {
    ghost use Rattle.aps_scenario.specs.Demands.{Demands as Plain, AreDemands};

    ghost Value = { Plain };

    ghost view = { λ d. record { shape = d.shape; demands = d.demands.items } };

    ghost invariant = { λ d. AreDemands (record { shape = d.shape; demands = d.demands.items }) };
}

impl Demands {
    ghost use Rattle.aps_scenario.specs.Demands.{AreDemands};

    /// Demands of a scenario of this shape, which are valid together. It takes no memory.
    pub fn new(shape: Shape, demands: Vec<Demand>) -> Self
        requires { AreDemands (record { shape = shape; demands = demands.items }) }
        ensures { result ≡ record { shape = shape; demands = demands.items } }
    {
        Demands { shape, demands }
    }

    /// The shape of the scenario.
    pub fn shape(&self) -> &Shape
        ensures same { result.now ≡ self.now.shape }
        ensures valid { AreDemands self.now }
    {
        &self.shape
    }

    /// The demands, in the order of the text.
    pub fn as_slice(&self) -> &[Demand]
        ensures same { result.now ≡ self.now.demands }
        ensures valid { AreDemands self.now }
    {
        self.demands.as_slice()
    }
}

/// The demands that a text states.
///
/// `Refused` has the first part of the text that breaks a rule of the format, in the one order of tests that
/// `docs/FORMATS.md` has, and how it breaks it; `not-toml -` comes exactly where the bytes aren't UTF-8 or no document.
/// `NoMemory` comes where memory runs out, and tells nothing of the text.
pub fn demands_of(alloc: Global, bytes: &[u8]) -> Result<Demands, ScenarioRefusal>
    ensures { TellsScenario result (spec.reads_demands bytes.now) }
{
    match toml::table_from_slice(alloc, bytes) {
        Ok(table) => demands_in(alloc, &table),
        Err(error) => Err(no_document(&error)),
    }
}

/// The demands that a document's top table states, or why it states none, as it is told.
fn demands_in(alloc: Global, table: &Table) -> Result<Demands, ScenarioRefusal>
    ensures { TellsScenario result (or_told (spec.demands_at (table_view table.now))) }
{
    match demands_at(alloc, table) {
        Ok(demands) => Ok(demands),
        Err(Failure::NoMemory) => Err(ScenarioRefusal::NoMemory),
        Err(Failure::Found(finding)) => Err(finding.told()),
    }
}

/// The demands of the top table.
#[tactic(auto, unfolding(crate::specs::Demands::demands_at))]
fn demands_at(alloc: Global, table: &Table) -> Result<Demands, Failure>
    ensures { ReadsOrFails (λ d. d) result (spec.demands_at (table_view table.now)) }
{
    only(&TOP_KEYS, Place::Top, table)?;
    let shape = sizes_at(table)?;
    let demands = asked_at(alloc, table)?;
    Ok(Demands::new(shape, demands))
}

/// The sizes that are given, and the shortest run with the default policies.
#[tactic(auto, unfolding(crate::specs::Demands::sizes_at))]
fn sizes_at(table: &Table) -> Result<Shape, Finding>
    ensures { result ≡ spec.sizes_at (table_view table.now) }
{
    let version = version_at(table)?;
    let cpus = cpus_at(table)?;
    let tick = tick_at(table)?;
    let window = window_at(table)?;
    Ok(Shape {
        parts: parts_of(version),
        cpus,
        tick,
        window,
        ticks: 1,
        call_ns: 1000,
        free: Free::Priority,
        limit: false,
        bankruptcy: Bankruptcy::Basic,
    })
}

/// The elements of the array of demands.
#[tactic(auto, unfolding(crate::specs::Demands::demands_read, crate::specs::Elements::read_each))]
fn asked_at(alloc: Global, table: &Table) -> Result<Vec<Demand>, Failure>
    ensures { ReadsOrFails (λ demands. demands.items) result (spec.demands_read (table_view table.now)) }
{
    match tables_at(table, Place::Top, Key::Demand, MOST_DEMANDS)? {
        Some(array) => demands_from(alloc, array),
        None => Ok(Vec::new(alloc)),
    }
}

/// The demands of these elements.
fn demands_from(alloc: Global, array: &Array) -> Result<Vec<Demand>, Failure>
    requires { length array.now.items ≤ most_demands }
    ensures { ReadsOrFails (λ demands. demands.items) result (spec.demands_from [] (array_view array.now)) }
{
    let mut demands = Vec::new(alloc);
    for value in array {
        let new = next_demand(&demands, value)?;
        demands.push(new)?;
    }
    Ok(demands)
}

/// The demand after these ones.
#[tactic(auto, unfolding(crate::specs::Demands::demand_at))]
fn next_demand(demands: &[Demand], value: &Value) -> Result<Demand, Finding>
    requires { length demands.now ≤ most_demands }
    ensures { result ≡ spec.next_demand demands.now (view value.now) }
{
    let place = Place::Demand(demands.len() as u16);
    let table = table_of(place, value)?;
    only(&DEMAND_KEYS, place, table)?;
    let name = name_at(table, place, Key::Name, None)?;
    refuse_if(is_taken(demands, &name), Kind::Duplicate, place, Key::Name)?;
    let need = integer_at(table, place, Key::Need, 0, MOST_NEED, 1, None)?;
    Ok(Demand { name, need })
}

/// Whether the name is that of the root, or of one of these.
fn is_taken(demands: &[Demand], name: &Name) -> bool
    ensures { result ≡ spec.is_taken demands.now name.now }
{
    name.text() == system_name().text() || is_among(demands, name)
}

fn is_among(demands: &[Demand], name: &Name) -> bool
    ensures { result ≡ spec.has_demand_named demands.now name.now }
{
    demands
        .iter()
        .any(|demand| name.text() == demand.name.text())
}
