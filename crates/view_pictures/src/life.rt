//! The life of one thread, drawn.
ghost use Rattle.std.specs.Prelude.{◌≡◌, ◌+◌, ◌*◌, ◌<◌, ◌≤◌, length};
ghost use Rattle.view_svg.specs.Span.{lowest_top};

use crate::scene::Scene;
use crate::tip::open_tip;
use aps_model::{CpuId, Name, NoMemory, PartitionId, Scenario};
use std::fmt::Write;
use view_lives::{Doing, Life, Segment};
use view_svg::element::{add_rect, close_group, close_text, open_text};
use view_svg::{Anchor, Area, Columns, Edge, Fill, Part, Place, Span};

/// How high a bar is.
const HEIGHT: u64 = 150;

/// The segments of a thread's life that last long enough to be seen, and its exit.
pub fn add_life(
    out: &mut String,
    scenario: &Scenario,
    scene: &Scene,
    name: &Name,
    life: &Life,
    y: u64,
) -> Result<(), NoMemory>
    requires { y ≤ lowest_top }
{
    for segment in life.segments() {
        if is_shown(&scene.span, segment) {
            open_tip(out, scenario, scene, name, segment)?;
            add_segment(out, &scene.span, segment, y)?;
            close_group(out)?;
        }
    }
    Ok(())
}

/// Whether something is drawn of a segment: a thread that sleeps has nothing, one that is gone a mark where it exits.
fn is_shown(span: &Span, segment: &Segment) -> bool {
    if !span.meets(segment.from, segment.to) {
        return false;
    }
    match segment.doing {
        Doing::Sleeping => false,
        Doing::Gone => segment.from >= span.from,
        _ => span.x_of(segment.from) < span.x_of(segment.to),
    }
}

/// The exit of a thread with this life, where it lies in the span.
pub fn add_exit(out: &mut String, span: &Span, life: &Life, y: u64) -> Result<(), NoMemory>
    requires { y ≤ lowest_top }
{
    match life.segments().last() {
        Some(segment) if segment.doing == Doing::Gone && span.has(segment.from) => {
            add_gone(out, span.x_of(segment.from), y + 40)
        }
        _ => Ok(()),
    }
}

fn add_segment(out: &mut String, span: &Span, segment: &Segment, y: u64) -> Result<(), NoMemory>
    requires { y ≤ lowest_top }
{
    let x = span.x_of(segment.from);
    let width = span.x_of(segment.to).saturating_sub(x);
    match segment.doing {
        Doing::Running {
            cpu,
            partition,
            critical,
        } => {
            let area = Area {
                x,
                y,
                width,
                height: HEIGHT,
            };
            add_run(out, area, partition, critical)?;
            add_cpu(out, area, cpu)
        }
        Doing::Ready => add_ready(out, x, y + 50, width),
        Doing::Sending(_) | Doing::Replying(_) => add_wait(out, x, y + 50, width),
        Doing::Receiving(_) => add_receive(out, x, y + 75, width),
        Doing::Gone => add_gone(out, x, y + 40),
        Doing::Sleeping => Ok(()),
    }
}

/// A bar of time that is billed to this partition, hatched where it is critical.
pub fn add_run(
    out: &mut String,
    area: Area,
    partition: PartitionId,
    critical: bool,
) -> Result<(), NoMemory> {
    add_rect(out, area, Fill::Partition(partition.index()), Edge::Plain)?;
    if critical {
        add_rect(out, area, Fill::Hatched, Edge::Half)?;
    }
    Ok(())
}

/// The processor, where the bar is wide enough.
fn add_cpu(out: &mut String, area: Area, cpu: CpuId) -> Result<(), NoMemory>
    requires x { area.x ≤ 1000000 }
    requires y { area.y ≤ lowest_top }
{
    if area.width < 300 {
        return Ok(());
    }
    let place = Place {
        x: area.x + 30,
        y: area.y + 112,
    };
    let cpu = cpu.index();
    open_text(out, place, 100, Anchor::Start)?;
    write!(out, "{cpu}")?;
    close_text(out)
}

/// A low bar of time in which a thread was ready.
pub fn add_ready(out: &mut String, x: u64, y: u64, width: u64) -> Result<(), NoMemory> {
    write!(
        out,
        "<rect x=\"{x}\" y=\"{y}\" width=\"{width}\" height=\"50\" fill=\"#777777\"/>\n"
    )
}

/// A low bar of time in which a thread waited for a server.
pub fn add_wait(out: &mut String, x: u64, y: u64, width: u64) -> Result<(), NoMemory> {
    write!(
        out,
        "<rect x=\"{x}\" y=\"{y}\" width=\"{width}\" height=\"50\" fill=\"#ffffff\" stroke=\"#222222\" stroke-width=\"8\"/>\n"
    )
}

/// A dotted line of time in which a thread waited for a message.
pub fn add_receive(out: &mut String, x: u64, y: u64, width: u64) -> Result<(), NoMemory> {
    write!(
        out,
        "<path d=\"M{x} {y}h{width}\" stroke=\"#222222\" stroke-width=\"10\" stroke-dasharray=\"10 30\"/>\n"
    )
}

/// A cross where a thread exits, from `y` on downwards.
pub fn add_gone(out: &mut String, x: u64, y: u64) -> Result<(), NoMemory> {
    let left = x.saturating_sub(35);
    write!(
        out,
        "<path d=\"M{left} {y}l70 70m0 -70l-70 70\" stroke=\"#222222\" stroke-width=\"14\"/>\n"
    )
}

/// The columns get the time in which the thread ran or was ready.
pub fn stacked(columns: &mut Columns, span: &Span, life: &Life) {
    for segment in life.segments() {
        if span.meets(segment.from, segment.to) {
            add_time(columns, segment);
        }
    }
}

fn add_time(columns: &mut Columns, segment: &Segment) {
    match segment.doing {
        Doing::Running {
            partition,
            critical,
            ..
        } => {
            let part = Part::Billed {
                partition: partition.index(),
                critical,
            };
            columns.add(segment.from, segment.to, part);
        }
        Doing::Ready => columns.add(segment.from, segment.to, Part::Ready),
        _ => (),
    }
}
