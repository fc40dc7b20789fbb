//! One bar of a processor.
ghost use Rattle.std.specs.Prelude.{◌≡◌, ◌+◌, ◌*◌, ◌<◌, ◌≤◌, length};
ghost use Rattle.view_pictures.specs.Strip.{lowest_bar};

use crate::lane::HEIGHT;
use crate::life::add_run;
use crate::scene::Scene;
use aps_model::{NoMemory, ThreadRow};
use std::fmt::Write;
use view_marks::Bar;
use view_marks::text::{row_name, thread_name};
use view_svg::element::{add_rect, add_text, close_group};
use view_svg::number::add_ms;
use view_svg::{Anchor, Area, Edge, Fill, Place};

/// A bar of this processor, where it lasts long enough to be seen.
pub fn add_bar(
    out: &mut String,
    threads: &[ThreadRow],
    scene: &Scene,
    c: usize,
    bar: &Bar,
    y: u64,
) -> Result<(), NoMemory>
    requires { y ≤ lowest_bar }
{
    let x = scene.span.x_of(bar.from);
    let width = scene.span.x_of(bar.to).saturating_sub(x);
    if width == 0 {
        return Ok(());
    }
    let area = Area {
        x,
        y,
        width,
        height: HEIGHT,
    };
    let name = thread_name(threads, bar.thread);
    add_tip(out, scene, name, c, bar)?;
    add_run(out, area, bar.partition, bar.critical)?;
    add_own(out, area, bar)?;
    add_begin(out, area)?;
    add_name(out, area, name)?;
    close_group(out)
}

/// What is shown where somebody points at the bar.
fn add_tip(
    out: &mut String,
    scene: &Scene,
    name: &str,
    c: usize,
    bar: &Bar,
) -> Result<(), NoMemory> {
    write!(out, "<g><title>{name} on cpu {c}, ")?;
    add_ms(out, bar.from)?;
    out.push_str(" to ")?;
    add_ms(out, bar.to)?;
    out.push_str(" ms, billed to ")?;
    out.push_str(row_name(scene.rows.as_slice(), bar.partition))?;
    if bar.critical {
        out.push_str(", critical")?;
    }
    out.push_str("</title>\n")
}

/// The thread's own partition at the foot, where another one is billed.
fn add_own(out: &mut String, area: Area, bar: &Bar) -> Result<(), NoMemory>
    requires { area.y ≤ lowest_bar }
{
    if bar.own == bar.partition {
        return Ok(());
    }
    let foot = Area {
        y: area.y + 210,
        height: 50,
        ..area
    };
    add_rect(out, foot, Fill::Partition(bar.own.index()), Edge::Plain)
}

/// A white line where the bar begins, where it is wide enough.
fn add_begin(out: &mut String, area: Area) -> Result<(), NoMemory> {
    if area.width < 60 {
        return Ok(());
    }
    let Area { x, y, .. } = area;
    write!(
        out,
        "<path d=\"M{x} {y}v260\" stroke=\"#ffffff\" stroke-width=\"6\"/>\n"
    )
}

/// The name of the thread, where there is room.
fn add_name(out: &mut String, area: Area, name: &str) -> Result<(), NoMemory>
    requires x { area.x ≤ 1000000 }
    requires y { area.y ≤ lowest_bar }
{
    if area.width < 60 || (area.width - 60) / 68 < name.len() as u64 {
        return Ok(());
    }
    let place = Place {
        x: area.x + 30,
        y: area.y + 150,
    };
    add_text(out, place, 110, Anchor::Start, name)
}
