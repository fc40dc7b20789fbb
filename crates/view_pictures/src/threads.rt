//! The picture of threads: a lane for each.
ghost use Rattle.std.specs.Prelude.{◌≡◌, ◌+◌, ◌*◌, ◌<◌, ◌≤◌, length};
ghost use Rattle.aps_model.specs.Legal.{IsLegal};
ghost use Rattle.aps_model.specs.Limits.{most_entries, most_threads};
ghost use Rattle.view_svg.specs.Span.{lowest_top};

use crate::legend::{add_hatched, add_partitions, add_sample, below_partitions};
use crate::life::{add_exit, add_gone, add_life, add_ready, add_receive, add_wait, stacked};
use crate::scene::Scene;
use crate::titles::{add_words, open_span_title};
use aps_model::{History, NoMemory, Order, Scenario, ThreadRow};
use std::alloc::Global;
use view_lives::{Life, lives};
use view_samples::table::Ticks;
use view_svg::axis::{Frame, add_axis};
use view_svg::columns::Strip;
use view_svg::element::{close_group, close_text, open_numbered, open_text};
use view_svg::page::{add_foot, add_head};
use view_svg::{Anchor, Columns, Fill, Place, Span};
use view_texts::text_of;

/// How many segments are drawn one by one.
const MOST: usize = 4000;

/// How far a lane is below the last one, and how high its bars are.
const LANE: u64 = 240;

const HEIGHT: u64 = 150;

/// A picture of these ticks of a history that is legal in this order of turns: a lane for each thread, with what it did. It is
/// text in SVG (docs/FORMATS.md). `NoMemory` comes where memory runs out.
pub fn threads_text(
    alloc: Global,
    history: &History,
    order: Order,
    ticks: Ticks,
) -> Result<String, NoMemory>
    requires legal { IsLegal history.now.scenario order history.now.entries }
    requires few { length history.now.entries ≤ most_entries }
{
    let scene = Scene::of(alloc, history, order, ticks)?;
    let lives = lives(alloc, history, order)?;
    let scenario = history.scenario();
    draw(
        alloc,
        scenario,
        scenario.threads(),
        &scene,
        lives.as_slice(),
    )
}

/// The picture of these threads of a scenario, whose lives these are.
fn draw(
    alloc: Global,
    scenario: &Scenario,
    threads: &[ThreadRow],
    scene: &Scene,
    lives: &[Life],
) -> Result<String, NoMemory>
    requires { length threads.now ≤ most_threads }
{
    let mut out = String::new(alloc);
    add_picture(alloc, &mut out, scenario, threads, scene, lives)?;
    Ok(out)
}

/// Adds the picture of these threads.
fn add_picture(
    alloc: Global,
    out: &mut String,
    scenario: &Scenario,
    threads: &[ThreadRow],
    scene: &Scene,
    lives: &[Life],
) -> Result<(), NoMemory>
    requires { length threads.now ≤ most_threads }
{
    let top = below_partitions(scene.rows.len()) + 300;
    let bottom = top + threads.len() as u64 * LANE;
    let exact = are_few(&scene.span, lives);
    add_head(out, "threads", bottom + 330, scene.rows.len())?;
    add_top(out, scene, exact)?;
    add_axis(out, frame_of(top, bottom), scene.span)?;
    if exact {
        add_lives(out, scenario, threads, scene, lives, top)?;
    } else {
        add_stacks(alloc, out, scene, threads, lives, top)?;
    }
    add_foot(out)
}

/// The axis of a picture of a span.
pub fn frame_of(top: u64, bottom: u64) -> Frame
    requires { bottom ≤ lowest_top }
{
    Frame {
        x: 1400,
        width: 12_000,
        top,
        bottom,
        most: 12,
    }
}

/// Whether few enough segments meet the span.
fn are_few(span: &Span, lives: &[Life]) -> bool {
    let mut count = 0usize;
    for life in lives {
        count = count.saturating_add(count_of(span, life));
    }
    count <= MOST
}

fn count_of(span: &Span, life: &Life) -> usize {
    let mut count = 0usize;
    for segment in life.segments() {
        if span.meets(segment.from, segment.to) {
            count = count.saturating_add(1);
        }
    }
    count
}

/// What stands above the lanes.
fn add_top(out: &mut String, scene: &Scene, exact: bool) -> Result<(), NoMemory> {
    open_span_title(out, "Threads", &scene.span, scene.cpus, scene.tick)?;
    close_text(out)?;
    add_partitions(out, scene)?;
    let y = below_partitions(scene.rows.len());
    let first = scene.rows.len().saturating_sub(1).min(1);
    add_sample(out, 200, y, Fill::Partition(first))?;
    add_words(out, 540, y + 125, "runs, billed to this partition")?;
    add_hatched(out, 3600, y)?;
    add_words(out, 3940, y + 125, "critical time")?;
    add_ready(out, 5300, y + 50, 260)?;
    add_words(out, 5640, y + 125, "ready, others run")?;
    add_manner(out, y, exact)?;
    add_gone(out, 12_900, y + 40)?;
    add_words(out, 13_020, y + 125, "exits")
}

/// How waits are drawn, with the line between those for a server to take a message and those for its reply; or that columns are.
fn add_manner(out: &mut String, y: u64, exact: bool) -> Result<(), NoMemory>
    requires { y ≤ lowest_top }
{
    if exact {
        add_wait(out, 7400, y + 50, 130)?;
        add_wait(out, 7530, y + 50, 130)?;
        add_words(out, 7740, y + 125, "waits for a server: queue, service")?;
        add_receive(out, 10_660, y + 75, 260)?;
        add_words(out, 11_000, y + 125, "waits for a message")
    } else {
        add_words(
            out,
            7400,
            y + 125,
            "each column: stacked shares of 1/600 of the time",
        )
    }
}

/// The lanes of all threads, segment by segment.
fn add_lives(
    out: &mut String,
    scenario: &Scenario,
    threads: &[ThreadRow],
    scene: &Scene,
    lives: &[Life],
    top: u64,
) -> Result<(), NoMemory>
    requires threads { length threads.now ≤ most_threads }
    requires top { top ≤ 10000 }
{
    for (x, thread) in threads.iter().enumerate() {
        let y = top + x as u64 * LANE + 50;
        open_lane(out, x, thread, y)?;
        if let Some(life) = lives.get(x) {
            add_life(out, scenario, scene, &thread.name, life, y)?;
        }
        close_group(out)?;
    }
    Ok(())
}

/// The lanes of all threads, as columns.
fn add_stacks(
    alloc: Global,
    out: &mut String,
    scene: &Scene,
    threads: &[ThreadRow],
    lives: &[Life],
    top: u64,
) -> Result<(), NoMemory>
    requires threads { length threads.now ≤ most_threads }
    requires top { top ≤ 10000 }
{
    let mut columns = Columns::new(alloc, scene.span)?;
    for (x, thread) in threads.iter().enumerate() {
        let y = top + x as u64 * LANE + 50;
        columns.clear();
        if let Some(life) = lives.get(x) {
            stacked(&mut columns, &scene.span, life);
        }
        open_lane(out, x, thread, y)?;
        add_stack(out, &mut columns, y)?;
        if let Some(life) = lives.get(x) {
            add_exit(out, &scene.span, life, y)?;
        }
        close_group(out)?;
    }
    Ok(())
}

/// These columns, from `y` on downwards.
fn add_stack(out: &mut String, columns: &mut Columns, y: u64) -> Result<(), NoMemory>
    requires { y ≤ lowest_top }
{
    let strip = Strip {
        top: y,
        height: HEIGHT,
    };
    columns.draw(out, strip)
}

/// The beginning of a thread's lane: its name.
fn open_lane(out: &mut String, x: usize, thread: &ThreadRow, y: u64) -> Result<(), NoMemory>
    requires { y ≤ lowest_top }
{
    open_numbered(out, "thread", x)?;
    let place = Place {
        x: 1340,
        y: y + 110,
    };
    open_text(out, place, 110, Anchor::End)?;
    out.push_str(text_of(&thread.name))?;
    close_text(out)
}
