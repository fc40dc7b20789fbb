//! The sizes and the policies of the top table.
ghost use Rattle.std.specs.Prelude.{◌≡◌};
ghost use Rattle.toml.specs.View.{table_view};
ghost use Rattle.aps_scenario.specs.declared.refusal.Place.TheVariants.{Top};
ghost use Rattle.aps_scenario.specs.Row.{value_of};
ghost use Rattle.aps_scenario.specs.Sizes as spec;

use crate::key::Key;
use crate::refusal::{Finding, Place};
use crate::row::{integer_at, truth_at};
use crate::words::{bankruptcy_at, free_at};
use aps_model::Shape;
use toml::Table;

/// The parts in which a version counts budgets.
pub fn parts_of(version: u64) -> u16
    ensures { result ≡ spec.parts_of version }
{
    if version == 1 { 100 } else { 1000 }
}

/// The version of the format.
pub fn version_at(table: &Table) -> Result<u64, Finding>
    ensures { result ≡ value_of spec.row_version Top (table_view table.now) }
{
    integer_at(table, Place::Top, Key::Version, 1, 2, 1, None)
}

/// The number of processors.
pub fn cpus_at(table: &Table) -> Result<u8, Finding>
    ensures { result ≡ value_of spec.row_cpus Top (table_view table.now) }
{
    match integer_at(table, Place::Top, Key::Cpus, 1, 16, 1, None) {
        Ok(cpus) => Ok(cpus as u8),
        Err(finding) => Err(finding),
    }
}

/// The length of a tick, in ns.
pub fn tick_at(table: &Table) -> Result<u64, Finding>
    ensures { result ≡ value_of spec.row_tick Top (table_view table.now) }
{
    integer_at(
        table,
        Place::Top,
        Key::Tick,
        100_000,
        10_000_000,
        1000,
        Some(1_000_000),
    )
}

/// The number of ticks in a window.
pub fn window_at(table: &Table) -> Result<u16, Finding>
    ensures { result ≡ value_of spec.row_window Top (table_view table.now) }
{
    match integer_at(table, Place::Top, Key::Window, 8, 400, 1, Some(100)) {
        Ok(window) => Ok(window as u16),
        Err(finding) => Err(finding),
    }
}

/// The sizes and the policies.
#[tactic(auto, unfolding(crate::specs::Sizes::shape_at))]
pub fn shape_at(table: &Table) -> Result<Shape, Finding>
    ensures { result ≡ spec.shape_at (table_view table.now) }
{
    let top = Place::Top;
    let version = version_at(table)?;
    let cpus = cpus_at(table)?;
    let tick = tick_at(table)?;
    let window = window_at(table)?;
    let ticks = integer_at(table, top, Key::Ticks, 1, 1_000_000, 1, None)?;
    let call_ns = integer_at(table, top, Key::CallNs, 1, 100_000, 1, Some(1000))?;
    let free = free_at(table, top)?;
    let limit = truth_at(table, top, Key::Limit)?;
    let bankruptcy = bankruptcy_at(table, top)?;
    Ok(Shape {
        parts: parts_of(version),
        cpus,
        tick,
        window,
        ticks: ticks as u32,
        call_ns,
        free,
        limit,
        bankruptcy,
    })
}
