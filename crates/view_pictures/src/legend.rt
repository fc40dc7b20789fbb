//! The legend of partitions.
ghost use Rattle.std.specs.Prelude.{◌≡◌, ◌+◌, ◌*◌, ◌/◌, ◌<◌, ◌≤◌, length};
ghost use Rattle.aps_model.specs.Limits.{most_partitions};

use crate::scene::Scene;
use crate::titles::add_budget;
use aps_model::NoMemory;
use std::fmt::Write;
use view_svg::element::{add_rect, close_text, open_text};
use view_svg::number::add_percent;
use view_svg::{Anchor, Area, Edge, Fill, Place};
use view_texts::text_of;

/// How high a row of the legend is, and how wide a cell is; four stand side by side.
const ROW: u64 = 210;

const CELL: u64 = 3400;

const CELLS: u64 = 4;

/// What is said of a partition that a command creates later.
pub const NOT_CREATED: &str = "not created yet";

/// Where the legend of partitions begins.
const TOP: u64 = 420;

/// Where the next line begins below the legend of so many partitions.
pub fn below_partitions(count: usize) -> u64
    requires { count ≤ most_partitions }
    ensures same { result ≡ 420 + (count + 3) / 4 * 210 + 60 }
    ensures few { result ≤ 2160 }
{
    TOP + (count as u64 + CELLS - 1) / CELLS * ROW + 60
}

/// A cell for each partition: its colour, its name, what it used of what is shown, and its budget at the end of that.
pub fn add_partitions(out: &mut String, scene: &Scene) -> Result<(), NoMemory> {
    for p in 0..scene.rows.len() {
        add_cell(out, scene, p)?;
    }
    Ok(())
}

fn add_cell(out: &mut String, scene: &Scene, p: usize) -> Result<(), NoMemory>
    requires { p < length scene.now.rows.items }
{
    let x = 200 + p as u64 % CELLS * CELL;
    let y = TOP + p as u64 / CELLS * ROW;
    add_sample(out, x, y, Fill::Partition(p))?;
    let place = Place {
        x: x + 340,
        y: y + 125,
    };
    open_text(out, place, 120, Anchor::Start)?;
    add_share(out, scene, p)?;
    close_text(out)
}

/// A box of this colour, with an edge.
pub fn add_sample(out: &mut String, x: u64, y: u64, fill: Fill) -> Result<(), NoMemory> {
    add_rect(out, sample_at(x, y), fill, Edge::Boxed)
}

/// A box with an edge and the hatching of critical time.
pub fn add_hatched(out: &mut String, x: u64, y: u64) -> Result<(), NoMemory> {
    add_sample(out, x, y, Fill::White)?;
    add_rect(out, sample_at(x, y), Fill::Hatched, Edge::Plain)
}

/// Where a box of a legend stands.
pub fn sample_at(x: u64, y: u64) -> Area {
    Area {
        x,
        y,
        width: 260,
        height: 150,
    }
}

/// The name of a partition, what it used, and its budget in the last tick that is shown; or that it didn't exist by then.
fn add_share(out: &mut String, scene: &Scene, p: usize) -> Result<(), NoMemory>
    requires { p < length scene.now.rows.items }
{
    let name = text_of(&scene.rows[p].name);
    write!(out, "{name} ")?;
    let Some(row) = scene.standing.rows.get(p) else {
        return out.push_str(NOT_CREATED);
    };
    let whole = u128::from(scene.cpus) * u128::from(scene.span.length());
    add_percent(out, scene.usage.used[p], whole)?;
    out.push_str(" of ")?;
    add_budget(out, row.budget, scene.parts)
}
