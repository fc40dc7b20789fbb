//! The lane of one processor.
ghost use Rattle.std.specs.Prelude.{◌≡◌, ◌+◌, ◌*◌, ◌<◌, ◌≤◌, length};
ghost use Rattle.aps_model.specs.Limits.{last_cpu};
ghost use Rattle.view_svg.specs.Span.{lowest_top};

use crate::bar::add_bar;
use crate::scene::Scene;
use aps_model::{CpuId, Entry, History, Nanos, NoMemory};
use std::fmt::Write;
use view_marks::{Lane, Message, flags, is_reply, message_of};
use view_svg::columns::Strip;
use view_svg::element::{add_rect, close_group, close_text, open_numbered, open_text};
use view_svg::number::add_percent;
use view_svg::{Anchor, Area, Columns, Edge, Fill, Glyph, GlyphRow, Part, Place, Span};

/// How high a bar is.
pub const HEIGHT: u64 = 260;

/// The lane of the processor with this number, bar by bar.
pub fn add_lane(
    out: &mut String,
    history: &History,
    scene: &Scene,
    lane: &Lane,
    c: usize,
    y: u64,
) -> Result<(), NoMemory>
    requires cpu { c ≤ last_cpu }
    requires y { y ≤ lowest_top }
{
    open_lane(out, scene, lane, c, y)?;
    let threads = history.scenario().threads();
    for bar in lane.bars() {
        if scene.span.meets(bar.from, bar.to) {
            add_bar(out, threads, scene, c, bar, y + 100)?;
        }
    }
    add_marks(out, history.entries(), &scene.span, CpuId::at(c), y)?;
    close_group(out)
}

/// The lane of the processor with this number, as columns. Marks are left out: they would cover it.
pub fn add_stack_lane(
    out: &mut String,
    columns: &mut Columns,
    scene: &Scene,
    lane: &Lane,
    c: usize,
    y: u64,
) -> Result<(), NoMemory>
    requires cpu { c ≤ last_cpu }
    requires y { y ≤ lowest_top }
{
    open_lane(out, scene, lane, c, y)?;
    columns.clear();
    stack(columns, &scene.span, lane);
    let strip = Strip {
        top: y + 100,
        height: HEIGHT,
    };
    columns.draw(out, strip)?;
    close_group(out)
}

/// The columns get the time of the bars.
fn stack(columns: &mut Columns, span: &Span, lane: &Lane) {
    for bar in lane.bars() {
        if span.meets(bar.from, bar.to) {
            let part = Part::Billed {
                partition: bar.partition.index(),
                critical: bar.critical,
            };
            columns.add(bar.from, bar.to, part);
        }
    }
}

/// The beginning of a lane: its names, and a frame for its bars.
fn open_lane(out: &mut String, scene: &Scene, lane: &Lane, c: usize, y: u64) -> Result<(), NoMemory>
    requires { y ≤ lowest_top }
{
    open_numbered(out, "cpu", c)?;
    let place = Place {
        x: 1300,
        y: y + 240,
    };
    open_text(out, place, 130, Anchor::End)?;
    write!(out, "cpu {c}")?;
    close_text(out)?;
    add_busy(out, &scene.span, lane, y + 380)?;
    let frame = Area {
        x: 1400,
        y: y + 100,
        width: 12_000,
        height: HEIGHT,
    };
    add_rect(out, frame, Fill::White, Edge::Thin)
}

/// How much of the time that is shown the processor ran somebody.
fn add_busy(out: &mut String, span: &Span, lane: &Lane, y: u64) -> Result<(), NoMemory> {
    open_text(out, Place { x: 1300, y }, 100, Anchor::End)?;
    out.push_str("busy ")?;
    add_percent(out, time_in(span, lane), u128::from(span.length()))?;
    close_text(out)
}

/// The time of the bars in the span.
fn time_in(span: &Span, lane: &Lane) -> Nanos {
    let mut time = 0u64;
    for bar in lane.bars() {
        time = time.saturating_add(span.within(bar.from, bar.to));
    }
    time
}

/// The marks of a processor: above its bars the flags that it got, below them its messages, and then its replies.
fn add_marks(
    out: &mut String,
    entries: &[Entry],
    span: &Span,
    c: CpuId,
    y: u64,
) -> Result<(), NoMemory>
    requires { y ≤ lowest_top }
{
    add_flags(out, entries, span, c, y + 20)?;
    add_messages(out, entries, span, c, y + 380)?;
    add_replies(out, entries, span, c, y + 470)
}

fn add_flags(
    out: &mut String,
    entries: &[Entry],
    span: &Span,
    c: CpuId,
    y: u64,
) -> Result<(), NoMemory> {
    let mut row = GlyphRow::at(y);
    for e in entries {
        if span.has(e.to) && flags(e, c) {
            row.add(out, Glyph::Flag, span.x_of(e.to))?;
        }
    }
    Ok(())
}

fn add_messages(
    out: &mut String,
    entries: &[Entry],
    span: &Span,
    c: CpuId,
    y: u64,
) -> Result<(), NoMemory> {
    let mut row = GlyphRow::at(y);
    for e in entries {
        if span.has(e.to) && e.cpu == c {
            add_message(out, &mut row, e, span.x_of(e.to))?;
        }
    }
    Ok(())
}

fn add_message(out: &mut String, row: &mut GlyphRow, e: &Entry, x: u64) -> Result<(), NoMemory>
    requires { x ≤ 1000000 }
{
    match message_of(e) {
        Some(Message::Taken) => row.add(out, Glyph::Sent, x),
        Some(Message::Waits) => row.add(out, Glyph::Blocked, x),
        None => Ok(()),
    }
}

fn add_replies(
    out: &mut String,
    entries: &[Entry],
    span: &Span,
    c: CpuId,
    y: u64,
) -> Result<(), NoMemory> {
    let mut row = GlyphRow::at(y);
    for e in entries {
        if span.has(e.to) && e.cpu == c && is_reply(e) {
            row.add(out, Glyph::Reply, span.x_of(e.to))?;
        }
    }
    Ok(())
}
