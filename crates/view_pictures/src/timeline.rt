//! The picture of processors: a lane for each.
ghost use Rattle.std.specs.Prelude.{◌≡◌, ◌+◌, ◌*◌, ◌<◌, ◌≤◌, length, IfOk};
ghost use Rattle.std.specs.List.{filter};
ghost use Rattle.view_marks.specs.declared.starved.Starved.{Starved};
ghost use Rattle.aps_model.specs.Legal.{IsLegal};
ghost use Rattle.view_svg.specs.Span.{lowest_top, meets};
ghost use Rattle.aps_model.specs.Limits.{last_cpu, most_entries};

use crate::lane::{add_lane, add_stack_lane};
use crate::legend::{add_hatched, add_partitions, add_sample, below_partitions, sample_at};
use crate::scene::Scene;
use crate::strip::{Strips, add_strips, strips_of};
use crate::threads::frame_of;
use crate::titles::{add_words, open_span_title};
use aps_model::{History, NoMemory, Order};
use std::alloc::Global;
use std::fmt::Write;
use view_marks::{Drawn, Lane, Starved, all_starved, drawn_of};
use view_samples::Overspent;
use view_samples::table::Ticks;
use view_svg::axis::add_axis;
use view_svg::columns::Strip;
use view_svg::element::{add_rect, add_text, close_group, close_text, open_group};
use view_svg::glyph::add_glyph;
use view_svg::page::{add_foot, add_head};
use view_svg::{Anchor, Area, Columns, Edge, Fill, Glyph, Part, Place, Span};

/// How many bars are drawn one by one.
const MOST: usize = 4000;

/// How far a lane is below the last one.
const LANE: u64 = 620;

/// How high the bars of time without work are.
const WITHOUT: u64 = 120;

/// What is drawn of the time that is shown, besides the lanes, and whether bars are drawn one by one.
#[derive(Drop)]
struct Plan {
    top: u64,
    bottom: u64,
    foot: u64,
    without: Vec<Starved>,
    strips: Strips,
    exact: bool,
    ghost low_top: { top ≤ 10000 },
    ghost low_bottom: { bottom ≤ 30000 },
    ghost low_foot: { foot ≤ 40000 },
}

/// A picture of these ticks of a history that is legal in this order of turns: a lane for each processor, with what it ran, and
/// below them time without work, overspent budgets and changes. It is text in SVG (docs/FORMATS.md). `NoMemory` comes where
/// memory runs out.
pub fn timeline_text(
    alloc: Global,
    history: &History,
    order: Order,
    ticks: Ticks,
    overspent: &[Overspent],
) -> Result<String, NoMemory>
    requires legal { IsLegal history.now.scenario order history.now.entries }
    requires few { length history.now.entries ≤ most_entries }
{
    let scene = Scene::of(alloc, history, order, ticks)?;
    let bars = drawn_of(alloc, history, order)?;
    let plan = plan_of(alloc, history, &scene, &bars, overspent)?;
    draw(alloc, history, &scene, &bars, &plan, overspent)
}

/// The picture by this plan.
fn draw(
    alloc: Global,
    history: &History,
    scene: &Scene,
    bars: &Drawn,
    plan: &Plan,
    overspent: &[Overspent],
) -> Result<String, NoMemory> {
    let mut out = String::new(alloc);
    let below = plan.foot + 240 * plan.strips.count();
    add_head(&mut out, "timeline", below + 330, scene.rows.len())?;
    add_top(&mut out, scene, plan.exact)?;
    add_grid(&mut out, scene, plan.top, below)?;
    add_lanes(alloc, &mut out, history, scene, bars, plan)?;
    add_without(alloc, &mut out, scene, plan)?;
    let alterations = bars.alterations();
    add_strips(
        alloc,
        &mut out,
        history.scenario().threads(),
        scene,
        &plan.strips,
        alterations,
        overspent,
        plan.foot,
    )?;
    add_foot(&mut out)?;
    Ok(out)
}

/// The lines for round moments.
fn add_grid(out: &mut String, scene: &Scene, top: u64, below: u64) -> Result<(), NoMemory>
    requires { below ≤ lowest_top }
{
    open_group(out, "grid")?;
    add_axis(out, frame_of(top, below), scene.span)?;
    close_group(out)
}

/// What is drawn besides the lanes, and where.
fn plan_of(
    alloc: Global,
    history: &History,
    scene: &Scene,
    bars: &Drawn,
    overspent: &[Overspent],
) -> Result<Plan, NoMemory> {
    let top = below_partitions(scene.rows.len()) + 300;
    let bottom = top + u64::from(scene.cpus) * LANE;
    let without = shown_of(
        alloc,
        &scene.span,
        all_starved(alloc, history.entries())?.as_slice(),
    )?;
    let strips = strips_of(alloc, &scene.span, bars.alterations(), overspent)?;
    let foot = if without.is_empty() {
        bottom
    } else {
        bottom + 180
    };
    Ok(Plan {
        top,
        bottom,
        foot,
        without,
        strips,
        exact: are_few(&scene.span, bars.lanes()),
    })
}

/// The bars without work that meet the span.
fn shown_of(alloc: Global, span: &Span, bars: &[Starved]) -> Result<Vec<Starved>, NoMemory>
    ensures { IfOk result (λ shown. shown.items ≡ filter (λ (bar : Starved). meets span.now.from span.now.to bar.from bar.to) bars.now) }
{
    let mut shown = Vec::new(alloc);
    for bar in bars {
        if span.meets(bar.from, bar.to) {
            shown.push(*bar)?;
        }
    }
    Ok(shown)
}

/// Whether few enough bars meet the span.
fn are_few(span: &Span, lanes: &[Lane]) -> bool {
    let mut count = 0usize;
    for lane in lanes {
        count = count.saturating_add(count_of(span, lane));
    }
    count <= MOST
}

fn count_of(span: &Span, lane: &Lane) -> usize {
    let mut count = 0usize;
    for bar in lane.bars() {
        if span.meets(bar.from, bar.to) {
            count = count.saturating_add(1);
        }
    }
    count
}

/// What stands above the lanes.
fn add_top(out: &mut String, scene: &Scene, exact: bool) -> Result<(), NoMemory> {
    open_span_title(out, "Timeline", &scene.span, scene.cpus, scene.tick)?;
    let window = scene.standing.window;
    write!(out, ", window {window} ticks")?;
    close_text(out)?;
    add_partitions(out, scene)?;
    let y = below_partitions(scene.rows.len());
    add_colours(out, y)?;
    if exact {
        add_marks(out, y)?;
        add_manner(out, scene, y)
    } else {
        add_words(
            out,
            2990,
            y + 125,
            "each column: stacked shares of 1/600 of the time",
        )
    }
}

/// What critical and idle time are drawn as.
fn add_colours(out: &mut String, y: u64) -> Result<(), NoMemory>
    requires { y ≤ lowest_top }
{
    add_hatched(out, 200, y)?;
    add_words(out, 540, y + 125, "critical time")?;
    add_rect(out, sample_at(2040, y), Fill::White, Edge::Thin)?;
    add_words(out, 2380, y + 125, "idle")
}

/// What the marks tell.
fn add_marks(out: &mut String, y: u64) -> Result<(), NoMemory>
    requires { y ≤ lowest_top }
{
    add_glyph(out, Glyph::Flag, 2990, y + 40)?;
    add_words(out, 3080, y + 125, "cpu was flagged")?;
    add_glyph(out, Glyph::Sent, 4590, y + 40)?;
    add_words(out, 4680, y + 125, "message taken")?;
    add_glyph(out, Glyph::Blocked, 6090, y + 40)?;
    add_words(out, 6180, y + 125, "message waits")?;
    add_glyph(out, Glyph::Reply, 7590, y + 40)?;
    add_words(out, 7680, y + 125, "reply")
}

/// How bars tell who is billed.
fn add_manner(out: &mut String, scene: &Scene, y: u64) -> Result<(), NoMemory>
    requires { y ≤ lowest_top }
{
    let first = scene.rows.len().saturating_sub(1).min(1);
    add_sample(out, 8500, y, Fill::Partition(first))?;
    let foot = Area {
        x: 8500,
        y: y + 110,
        width: 260,
        height: 40,
    };
    add_rect(out, foot, Fill::Partition(0), Edge::Plain)?;
    add_words(
        out,
        8840,
        y + 125,
        "top: who is billed, foot: whose thread it is",
    )
}

/// The lanes of all processors.
fn add_lanes(
    alloc: Global,
    out: &mut String,
    history: &History,
    scene: &Scene,
    bars: &Drawn,
    plan: &Plan,
) -> Result<(), NoMemory> {
    let mut columns = Columns::new(alloc, scene.span)?;
    for c in 0..usize::from(scene.cpus) {
        if let Some(lane) = bars.lanes().get(c) {
            add_one(out, &mut columns, history, scene, plan, lane, c)?;
        }
    }
    Ok(())
}

/// The lane of the processor with this number.
fn add_one(
    out: &mut String,
    columns: &mut Columns,
    history: &History,
    scene: &Scene,
    plan: &Plan,
    lane: &Lane,
    c: usize,
) -> Result<(), NoMemory>
    requires { c ≤ last_cpu }
{
    let y = plan.top + c as u64 * LANE;
    if plan.exact {
        add_lane(out, history, scene, lane, c, y)
    } else {
        add_stack_lane(out, columns, scene, lane, c, y)
    }
}

/// Below the lanes, for how long partitions with a budget were without work.
fn add_without(
    alloc: Global,
    out: &mut String,
    scene: &Scene,
    plan: &Plan,
) -> Result<(), NoMemory> {
    if plan.without.is_empty() {
        return Ok(());
    }
    open_group(out, "starved")?;
    let place = Place {
        x: 1300,
        y: plan.bottom + 90,
    };
    add_text(out, place, 110, Anchor::End, "without work")?;
    if plan.exact {
        for bar in &plan.without {
            add_without_bar(out, &scene.span, bar, plan.bottom)?;
        }
    } else {
        add_without_stacks(alloc, out, scene, plan)?;
    }
    close_group(out)
}

fn add_without_bar(out: &mut String, span: &Span, bar: &Starved, y: u64) -> Result<(), NoMemory> {
    let x = span.x_of(bar.from);
    let width = span.x_of(bar.to).saturating_sub(x);
    if width == 0 {
        return Ok(());
    }
    let area = Area {
        x,
        y,
        width,
        height: WITHOUT,
    };
    add_rect(
        out,
        area,
        Fill::Partition(bar.partition.index()),
        Edge::Plain,
    )
}

fn add_without_stacks(
    alloc: Global,
    out: &mut String,
    scene: &Scene,
    plan: &Plan,
) -> Result<(), NoMemory> {
    let mut columns = Columns::new(alloc, scene.span)?;
    for bar in &plan.without {
        let part = Part::Billed {
            partition: bar.partition.index(),
            critical: false,
        };
        columns.add(bar.from, bar.to, part);
    }
    let strip = Strip {
        top: plan.bottom,
        height: WITHOUT,
    };
    columns.draw(out, strip)
}
