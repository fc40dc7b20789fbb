//! The picture of usage: a panel for each partition.
ghost use Rattle.std.specs.Prelude.{◌≡◌, ◌+◌, ◌*◌, ◌<◌, ◌≤◌, length};
ghost use Rattle.aps_model.specs.Legal.{IsLegal};
ghost use Rattle.aps_model.specs.Loaded.{finished_ticks};
ghost use Rattle.view_pictures.specs.Panel.{IsPanelPlaced, rows_of_panels};
ghost use Rattle.aps_model.specs.Limits.{most_entries, most_partitions};

use crate::group::{Groups, groups_of};
use crate::panel::{Panel, add_panel};
use crate::scale::Sizes;
use crate::survey::{Range, Survey, survey_of};
use crate::titles::{add_run, open_title};
use aps_model::{History, NoMemory, Order, PartitionRow, finished_ticks};
use std::alloc::Global;
use std::fmt::Write;
use view_replay::rows_after;
use view_samples::table::Ticks;
use view_svg::element::{add_text, close_text};
use view_svg::page::{add_foot, add_head};
use view_svg::{Anchor, Place};

/// How far a panel is below the last one, and where the first one stands.
const PITCH: u64 = 1560;

const TOP: u64 = 780;

/// The partitions that stand below one another; more stand in two columns.
const ONE_COLUMN: usize = 8;

const LEGEND: &str = "<rect x=\"200\" y=\"380\" width=\"260\" height=\"150\" fill=\"#77aadd\"/>
<path d=\"M200 380h260\" stroke=\"#222222\" stroke-width=\"16\"/>
<text x=\"540\" y=\"505\" font-size=\"120\" text-anchor=\"start\">used</text>
<rect x=\"1240\" y=\"380\" width=\"260\" height=\"150\" fill=\"#77aadd\"/>
<rect x=\"1240\" y=\"380\" width=\"260\" height=\"150\" fill=\"url(#c)\" opacity=\"0.5\"/>
<text x=\"1580\" y=\"505\" font-size=\"120\" text-anchor=\"start\">of it critical</text>
<path d=\"M3040 455h260\" stroke=\"#222222\" stroke-width=\"20\" stroke-dasharray=\"80 40\"/>
<text x=\"3380\" y=\"505\" font-size=\"120\" text-anchor=\"start\">allowance</text>
<path d=\"M4540 455h260\" stroke=\"#cc3311\" stroke-width=\"26\"/>
<text x=\"4880\" y=\"505\" font-size=\"120\" text-anchor=\"start\">proved bound, in ";

const LEGEND_END: &str = " windows without a change</text>
<rect x=\"9040\" y=\"380\" width=\"260\" height=\"150\" fill=\"#eeeeee\"/>
<text x=\"9380\" y=\"505\" font-size=\"120\" text-anchor=\"start\">window not full</text>
<rect x=\"10840\" y=\"435\" width=\"260\" height=\"40\" fill=\"#777777\"/>
<text x=\"11180\" y=\"505\" font-size=\"120\" text-anchor=\"start\">at times without work</text>
";

/// A picture of the samples of these ticks, of a history that is legal in this order of turns: a panel for each partition, with
/// what it used, was allowed and uses at most in the window that ends with each finished tick. It is text in SVG
/// (docs/FORMATS.md). `NoMemory` comes where memory runs out.
pub fn usage_text(
    alloc: Global,
    history: &History,
    order: Order,
    ticks: Ticks,
) -> Result<String, NoMemory>
    requires legal { IsLegal history.now.scenario order history.now.entries }
    requires few { length history.now.entries ≤ most_entries }
{
    let shape = *history.scenario().shape();
    let sizes = Sizes {
        cpus: shape.cpus,
        tick: shape.tick,
    };
    let rows = rows_after(alloc, history, order)?;
    let finished = finished_ticks(&shape, history.entries());
    let from = u64::from(ticks.from);
    let end = match ticks.to {
        Some(to) => finished.min(u64::from(to)),
        None => finished,
    };
    if from < end {
        let range = Range { from, end };
        usage_of(
            alloc,
            history,
            order,
            sizes,
            range,
            rows.as_slice(),
            shape.parts,
        )
    } else {
        nothing(alloc, sizes, rows.len())
    }
}

/// The picture where no sample is shown.
fn nothing(alloc: Global, sizes: Sizes, count: usize) -> Result<String, NoMemory> {
    let mut out = String::new(alloc);
    add_nothing(&mut out, sizes, count)?;
    Ok(out)
}

fn add_nothing(out: &mut String, sizes: Sizes, count: usize) -> Result<(), NoMemory> {
    add_head(out, "usage", 1100, count)?;
    add_top(out, sizes, 0)?;
    let place = Place { x: 200, y: 900 };
    add_text(out, place, 140, Anchor::Start, "No tick is finished.")?;
    add_foot(out)
}

/// The picture of these samples.
fn usage_of(
    alloc: Global,
    history: &History,
    order: Order,
    sizes: Sizes,
    range: Range,
    rows: &[PartitionRow],
    parts: u16,
) -> Result<String, NoMemory>
    requires legal { IsLegal history.now.scenario order history.now.entries }
    requires few { length history.now.entries ≤ most_entries }
    requires finished { range.end ≤ finished_ticks history.now.scenario.shape history.now.entries }
    requires rows { length rows.now ≤ most_partitions }
{
    let survey = survey_of(alloc, history, order, sizes, range)?;
    let groups = groups_of(alloc, history, order, sizes, range, &survey)?;
    draw(alloc, rows, parts, sizes, range, &survey, &groups)
}

/// The picture of these groups of samples.
fn draw(
    alloc: Global,
    rows: &[PartitionRow],
    parts: u16,
    sizes: Sizes,
    range: Range,
    survey: &Survey,
    groups: &Groups,
) -> Result<String, NoMemory>
    requires { length rows.now ≤ most_partitions }
{
    let mut out = String::new(alloc);
    add_picture(&mut out, rows, parts, sizes, range, survey, groups)?;
    Ok(out)
}

/// Adds the picture of these groups of samples.
fn add_picture(
    out: &mut String,
    rows: &[PartitionRow],
    parts: u16,
    sizes: Sizes,
    range: Range,
    survey: &Survey,
    groups: &Groups,
) -> Result<(), NoMemory>
    requires { length rows.now ≤ most_partitions }
{
    let height = TOP + height_of(rows.len()) * PITCH;
    add_head(out, "usage", height, rows.len())?;
    add_top(out, sizes, survey.unchanged)?;
    add_panels(out, rows, parts, sizes, range, survey, groups)?;
    add_foot(out)
}

/// What stands above the panels.
fn add_top(out: &mut String, sizes: Sizes, unchanged: u64) -> Result<(), NoMemory> {
    open_title(out)?;
    out.push_str("Usage of each partition in the window that ends at each tick, ")?;
    add_run(out, sizes.cpus, sizes.tick)?;
    close_text(out)?;
    out.push_str(LEGEND)?;
    write!(out, "{unchanged}")?;
    out.push_str(LEGEND_END)
}

/// How many panels stand below one another.
fn height_of(count: usize) -> u64
    requires { count ≤ most_partitions }
    ensures same { result ≡ rows_of_panels count }
    ensures few { result ≤ most_partitions }
{
    if count <= ONE_COLUMN {
        count as u64
    } else {
        count.div_ceil(2) as u64
    }
}

fn add_panels(
    out: &mut String,
    rows: &[PartitionRow],
    parts: u16,
    sizes: Sizes,
    range: Range,
    survey: &Survey,
    groups: &Groups,
) -> Result<(), NoMemory>
    requires rows { length rows.now ≤ most_partitions }
{
    for (p, row) in rows.iter().enumerate() {
        let panel = panel_at(p, rows.len());
        add_panel(out, &panel, p, row, parts, sizes, range, survey, groups)?;
    }
    Ok(())
}

/// Where the panel of a partition stands, of so many.
fn panel_at(p: usize, count: usize) -> Panel
    requires p { p < count }
    requires count { count ≤ most_partitions }
    ensures { IsPanelPlaced p count result }
{
    if count <= ONE_COLUMN {
        return Panel {
            x: 1400,
            y: TOP + p as u64 * PITCH,
            width: 12_000,
            narrow: false,
        };
    }
    let height = count.div_ceil(2);
    Panel {
        x: if p < height { 1400 } else { 7900 },
        y: TOP + (p % height) as u64 * PITCH,
        width: 5500,
        narrow: true,
    }
}
