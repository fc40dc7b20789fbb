//! The panel of one partition.
ghost use Rattle.std.specs.Prelude.{◌≡◌, ◌+◌, ◌*◌, ◌/◌, ◌<◌, ◌≤◌, length, min};
ghost use Rattle.aps_model.specs.Limits.{most_partitions};
ghost use Rattle.view_svg.specs.Span.{left_edge, lowest_top, page_width};

use crate::group::{Group, Groups};
use crate::legend::NOT_CREATED;
use crate::scale::{HEIGHT, Sizes, top_of};
use crate::survey::{Found, Peak, Range, Survey};
use crate::titles::add_budget;
use aps_model::{Nanos, NoMemory, PartitionRow};
use std::fmt::Write;
use view_svg::axis::{Frame, add_axis};
use view_svg::element::{
    add_rect, close_filled, close_group, close_path, close_text, open_numbered, open_path,
    open_text,
};
use view_svg::number::{add_decimal, add_ms, add_percent};
use view_svg::{Anchor, Area, Edge, Fill, Place, Span, share};
use view_texts::text_of;

/// Where a panel stands, with its title on top, and how wide it is; a narrow one has a smaller title and fewer lines.
#[derive(Clone, Copy)]
pub struct Panel {
    pub x: u64,
    pub y: u64,
    pub width: u64,
    pub narrow: bool,
    ghost left: { left_edge ≤ x },
    ghost inside: { x + width ≤ page_width },
    ghost low: { y ≤ 100000 },
}

/// The lines of a panel: where it begins on the left, how wide it is, where its top is, and how many samples it shows.
#[derive(Clone, Copy)]
struct Plot {
    x: u64,
    top: u64,
    width: u64,
    count: u64,
    p: usize,
    ghost left: { left_edge ≤ x },
    ghost inside: { x + width ≤ page_width },
    ghost low: { top ≤ 200000 },
    ghost some: { 0 < count },
    ghost partition: { p < most_partitions },
}

/// The panel of the partition with this number and row.
pub fn add_panel(
    out: &mut String,
    panel: &Panel,
    p: usize,
    row: &PartitionRow,
    parts: u16,
    sizes: Sizes,
    range: Range,
    survey: &Survey,
    groups: &Groups,
) -> Result<(), NoMemory>
    requires { p < most_partitions }
{
    let plot = Plot {
        x: panel.x,
        top: panel.y + 180,
        width: panel.width,
        count: range.count(),
        p,
    };
    open_numbered(out, "partition", p)?;
    open_panel_title(out, panel)?;
    add_title(out, row, survey.rows.get(p), parts, sizes, &survey.found[p])?;
    add_partial(out, &plot, range, survey.partial)?;
    add_axis(out, frame_of(panel), span_of(range, sizes))?;
    add_heights(out, &plot, top_of(survey.found[p].scale))?;
    add_lines(out, &plot, groups, survey.found[p].critical)?;
    close_group(out)
}

/// The axis of a panel.
fn frame_of(panel: &Panel) -> Frame {
    Frame {
        x: panel.x,
        width: panel.width,
        top: panel.y + 180,
        bottom: panel.y + 180 + HEIGHT + 60,
        most: if panel.narrow { 6 } else { 12 },
    }
}

/// The time of the ticks that are shown.
fn span_of(range: Range, sizes: Sizes) -> Span
    ensures from { result.from ≡ range.from * sizes.tick }
    ensures to { result.to ≡ range.end * sizes.tick }
{
    Span {
        from: range.from * sizes.tick,
        to: range.end * sizes.tick,
    }
}

// ---- the title

fn open_panel_title(out: &mut String, panel: &Panel) -> Result<(), NoMemory> {
    let size = if panel.narrow { 90 } else { 125 };
    let place = Place {
        x: panel.x,
        y: panel.y + 120,
    };
    open_text(out, place, size, Anchor::Start)
}

/// The name of a partition, its budget in the last tick, and where it used the most in windows without a change, the least while it
/// always had work, and the most in windows with a change.
fn add_title(
    out: &mut String,
    row: &PartitionRow,
    last: Option<&PartitionRow>,
    parts: u16,
    sizes: Sizes,
    found: &Found,
) -> Result<(), NoMemory> {
    let name = text_of(&row.name);
    write!(out, "{name} ")?;
    match last {
        Some(last) => add_found(out, last, parts, sizes, found)?,
        None => out.push_str(NOT_CREATED)?,
    }
    close_text(out)
}

/// The budget in the last tick, and what is found.
fn add_found(
    out: &mut String,
    last: &PartitionRow,
    parts: u16,
    sizes: Sizes,
    found: &Found,
) -> Result<(), NoMemory> {
    out.push_str("budget ")?;
    add_budget(out, last.budget, parts)?;
    add_peak(out, ", most ", found.most, sizes)?;
    add_peak(out, ", least with work ", found.least, sizes)?;
    add_peak(out, ", changed ", found.changed, sizes)
}

/// What was used in one sample, and where its tick ended.
fn add_peak(
    out: &mut String,
    words: &str,
    peak: Option<Peak>,
    sizes: Sizes,
) -> Result<(), NoMemory> {
    let Some(peak) = peak else {
        return Ok(());
    };
    out.push_str(words)?;
    add_percent(out, peak.used, u128::from(peak.whole))?;
    out.push_str(" at ")?;
    add_ms(out, end_of(peak.tick, sizes))?;
    out.push_str(" ms")
}

/// Where a tick ends, in ns.
fn end_of(tick: u64, sizes: Sizes) -> Nanos {
    tick.saturating_add(1).saturating_mul(sizes.tick)
}

// ---- the background

/// The time of windows that aren't full.
fn add_partial(
    out: &mut String,
    plot: &Plot,
    range: Range,
    partial: Option<u64>,
) -> Result<(), NoMemory> {
    let Some(tick) = partial else {
        return Ok(());
    };
    let ends = tick
        .saturating_add(1)
        .saturating_sub(range.from)
        .min(plot.count);
    let area = Area {
        x: plot.x,
        y: plot.top,
        width: share(ends, plot.width, plot.count),
        height: HEIGHT,
    };
    add_rect(out, area, Fill::Pale, Edge::Plain)
}

/// Lines at nothing, at half of the top and at the top, which stands for so many parts of 1,000.
fn add_heights(out: &mut String, plot: &Plot, top: u64) -> Result<(), NoMemory> {
    add_height(out, plot, plot.top + HEIGHT, 0)?;
    add_height(out, plot, plot.top + HEIGHT / 2, top / 2)?;
    add_height(out, plot, plot.top, top)
}

fn add_height(out: &mut String, plot: &Plot, y: u64, share: u64) -> Result<(), NoMemory>
    requires { y ≤ lowest_top }
{
    let Plot { x, width, .. } = *plot;
    write!(
        out,
        "<path d=\"M{x} {y}h{width}\" stroke=\"#bbbbbb\" stroke-width=\"6\"/>\n"
    )?;
    let place = Place {
        x: plot.x - 80,
        y: y + 40,
    };
    open_text(out, place, 110, Anchor::End)?;
    add_decimal_or_whole(out, share)?;
    out.push_str(" %")?;
    close_text(out)
}

/// So many parts of 1,000 in percent, with a place where they aren't whole.
fn add_decimal_or_whole(out: &mut String, share: u64) -> Result<(), NoMemory> {
    if share % 10 == 0 {
        add_decimal(out, u128::from(share / 10), 0)
    } else {
        add_decimal(out, u128::from(share), 1)
    }
}

// ---- the lines

impl Plot {
    /// Where the samples before this place end.
    fn x_of(&self, place: u64) -> u64
        ensures same { result ≡ self.now.x + min place self.now.count * self.now.width / self.now.count }
        ensures least { left_edge ≤ result }
        ensures most { result ≤ page_width }
    {
        self.x + share(place.min(self.count), self.width, self.count)
    }

    /// So far below the top.
    fn y_of(&self, depth: u16) -> u64
        ensures same { result ≡ self.now.top + depth }
        ensures low { result ≤ 300000 }
    {
        self.top + u64::from(depth)
    }
}

/// Which of a point's heights a line follows.
#[derive(Clone, Copy)]
enum Line {
    High,
    Low,
    Plain,
}

fn depth_of(group: &Group, p: usize, line: Line) -> u16
    requires { p < most_partitions }
{
    let point = &group.points[p];
    match line {
        Line::High => point.high,
        Line::Low => point.low,
        Line::Plain => point.plain,
    }
}

/// All lines of a panel.
fn add_lines(
    out: &mut String,
    plot: &Plot,
    groups: &Groups,
    critical: bool,
) -> Result<(), NoMemory> {
    add_used(out, plot, groups)?;
    if critical {
        add_critical(out, plot, groups)?;
    }
    if groups.size > 1 {
        add_line(out, plot, groups, Line::Low)?;
        close_path(out, "fill=\"none\" stroke=\"#222222\" stroke-width=\"6\"")?;
    }
    add_line(out, plot, groups, Line::High)?;
    close_path(out, "fill=\"none\" stroke=\"#222222\" stroke-width=\"14\"")?;
    add_allowances(out, plot, &groups.groups)?;
    add_bounds(out, plot, &groups.groups)?;
    add_lacks(out, plot, &groups.groups)
}

/// The area below what was used.
fn add_used(out: &mut String, plot: &Plot, groups: &Groups) -> Result<(), NoMemory> {
    add_line(out, plot, groups, Line::High)?;
    let bottom = plot.top + HEIGHT;
    let x = plot.x;
    write!(out, "V{bottom}H{x}z")?;
    close_filled(out, Fill::Partition(plot.p))
}

/// The area of critical time.
fn add_critical(out: &mut String, plot: &Plot, groups: &Groups) -> Result<(), NoMemory> {
    add_line(out, plot, groups, Line::High)?;
    let list = groups.groups.as_slice();
    for i in (0..list.len()).rev() {
        add_point(out, plot, &list[i], Line::Plain)?;
    }
    let x = plot.x;
    let y = plot.y_of(groups.begins[plot.p]);
    write!(out, "L{x} {y}z")?;
    close_path(out, "fill=\"url(#c)\" opacity=\"0.5\"")
}

/// The beginning of a path, and a line from the left through all groups.
fn add_line(out: &mut String, plot: &Plot, groups: &Groups, line: Line) -> Result<(), NoMemory> {
    open_path(out)?;
    let x = plot.x;
    let y = plot.y_of(groups.begins[plot.p]);
    write!(out, "M{x} {y}")?;
    for group in &groups.groups {
        add_point(out, plot, group, line)?;
    }
    Ok(())
}

fn add_point(out: &mut String, plot: &Plot, group: &Group, line: Line) -> Result<(), NoMemory> {
    let x = plot.x_of(group.end);
    let y = plot.y_of(depth_of(group, plot.p, line));
    write!(out, "L{x} {y}")
}

/// What was allowed, as steps.
fn add_allowances(out: &mut String, plot: &Plot, groups: &[Group]) -> Result<(), NoMemory> {
    open_path(out)?;
    for i in 0..groups.len() {
        let group = &groups[i];
        let depth = group.points[plot.p].allowance;
        if i == 0 {
            let x = plot.x;
            let y = plot.y_of(depth);
            write!(out, "M{x} {y}")?;
        }
        add_step(out, plot, group.end, depth, groups.get(i + 1))?;
    }
    close_path(
        out,
        "fill=\"none\" stroke=\"#222222\" stroke-width=\"18\" stroke-dasharray=\"80 40\"",
    )
}

/// The line at this depth up to this place, and down or up to the next group's, where that is another one.
fn add_step(
    out: &mut String,
    plot: &Plot,
    end: u64,
    depth: u16,
    next: Option<&Group>,
) -> Result<(), NoMemory> {
    let x = plot.x_of(end);
    let Some(group) = next else {
        return write!(out, "H{x}");
    };
    let after = group.points[plot.p].allowance;
    if after == depth {
        return Ok(());
    }
    let y = plot.y_of(after);
    write!(out, "H{x}V{y}")
}

/// The bound, where no change stands in the windows.
fn add_bounds(out: &mut String, plot: &Plot, groups: &[Group]) -> Result<(), NoMemory> {
    let mut open = false;
    for group in groups {
        open = add_bound(out, plot, group, open)?;
    }
    if open {
        close_bound(out)?;
    }
    Ok(())
}

/// The next piece of the bound's line, where that goes on or not; whether it goes on.
fn add_bound(out: &mut String, plot: &Plot, group: &Group, open: bool) -> Result<bool, NoMemory> {
    if !group.unchanged {
        if open {
            close_bound(out)?;
        }
        return Ok(false);
    }
    let x = plot.x_of(group.end);
    let y = plot.y_of(group.points[plot.p].bound);
    if !open {
        let left = x - 20;
        open_path(out)?;
        write!(out, "M{left} {y}")?;
    }
    write!(out, "L{x} {y}")?;
    Ok(true)
}

fn close_bound(out: &mut String) -> Result<(), NoMemory> {
    close_path(out, "fill=\"none\" stroke=\"#cc3311\" stroke-width=\"24\"")
}

/// Bars below the panel, for groups in which the partition was without work.
fn add_lacks(out: &mut String, plot: &Plot, groups: &[Group]) -> Result<(), NoMemory> {
    let mut from: Option<u64> = None;
    let mut end = 0;
    for group in groups {
        if group.points[plot.p].lacking {
            from = Some(from.unwrap_or(group.from));
            end = group.end;
        } else {
            add_lack(out, plot, from, end)?;
            from = None;
        }
    }
    add_lack(out, plot, from, end)
}

/// A bar from one place to another, where one has begun.
fn add_lack(out: &mut String, plot: &Plot, from: Option<u64>, end: u64) -> Result<(), NoMemory> {
    let Some(from) = from else {
        return Ok(());
    };
    let left = plot.x_of(from);
    let area = Area {
        x: left,
        y: plot.top + HEIGHT + 20,
        width: plot.x_of(end).saturating_sub(left),
        height: 40,
    };
    add_rect(out, area, Fill::Dark, Edge::Plain)
}
