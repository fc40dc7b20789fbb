//! The windows of a history: what each partition used in each.
ghost use Rattle.std.specs.Prelude.{◌≡◌, ◌≤◌, ◌<◌, ◌+◌, ◌*◌, ◌/◌, ◌++◌, ◌∷◌, All, codes, decimal, length, string_bytes, IfOk, OnOk};
ghost use Rattle.std.specs.List.{flat_map, range_with_len};
ghost use Rattle.aps_model.specs.Shape.{IsShape};
ghost use Rattle.aps_model.specs.History.{IsEntry};
ghost use Rattle.aps_model.specs.Report.{windows_text};
ghost use Rattle.aps_report.specs.Windows.{part_in_window, cell_words, window_with, HaveCellRoom, HaveParts, HaveEntry, AreUsed};
ghost use Rattle.aps_model.specs.Limits.{last_moment, last_tick, longest_tick, most_partitions};

use crate::lines::add_end;
use crate::zeros::zeros;
use aps_model::limits::MOST_PARTITIONS;
use aps_model::{Entry, History, NoMemory, Shape, finished_ticks, overlap};
use aps_ticks::tick_of;
use std::alloc::Global;
use std::fmt::Write;

/// One line for each finished window, from tick 0 on and one after the other, with the nanoseconds
/// that each partition used in it (docs/FORMATS.md, "Windows"). The length of a window is the one
/// that stands last, and so is the number of partitions. `NoMemory` comes where memory runs out.
pub fn windows(alloc: Global, history: &History) -> Result<String, NoMemory>
    ensures { IfOk result (λ text. string_bytes text ≡ windows_text history.now) }
{
    let shape = history.shape();
    let entries = history.entries();
    let count = (finished_ticks(shape, entries) / u64::from(shape.window)) as usize;
    let cells = table_of(alloc, shape, count, entries)?;
    let mut out = String::new(alloc);
    add_windows_title(&mut out)?;
    add_end(&mut out, &history.end())?;
    add_windows(&mut out, &cells, history.rows().len(), shape.window, count)?;
    Ok(out)
}

fn add_windows_title(out: &mut String) -> Result<(), NoMemory>
    ensures { OnOk result (string_bytes out.new ≡ string_bytes out.old ++ codes "aps windows 1\n") }
{
    out.push_str("aps windows 1\n")
}

fn add_windows(
    out: &mut String,
    cells: &[u128],
    rows: usize,
    window: u16,
    count: usize,
) -> Result<(), NoMemory>
    requires rows { rows ≤ most_partitions }
    requires count { count ≤ last_tick }
    requires places { length cells.now ≡ count * most_partitions }
    ensures { OnOk result (string_bytes out.new
        ≡ string_bytes out.old ++ flat_map (window_with cells.now rows window) (range_with_len 0 count)) }
{
    for k in 0..count {
        add_window(out, cells, rows, window, k)?;
    }
    Ok(())
}

fn add_window(
    out: &mut String,
    cells: &[u128],
    rows: usize,
    window: u16,
    k: usize,
) -> Result<(), NoMemory>
    requires rows { rows ≤ most_partitions }
    requires window { k ≤ last_tick }
    requires places { k * most_partitions + most_partitions ≤ length cells.now }
    ensures { OnOk result (string_bytes out.new ≡ string_bytes out.old ++ window_with cells.now rows window k) }
{
    add_first(out, k * usize::from(window))?;
    add_cells(out, cells, rows, k)?;
    add_newline(out)?;
    Ok(())
}

fn add_cells(out: &mut String, cells: &[u128], rows: usize, k: usize) -> Result<(), NoMemory>
    requires rows { rows ≤ most_partitions }
    requires window { k ≤ last_tick }
    requires places { k * most_partitions + most_partitions ≤ length cells.now }
    ensures { OnOk result (string_bytes out.new ≡ string_bytes out.old ++ flat_map (cell_words cells.now k) (range_with_len 0 rows)) }
{
    for p in 0..rows {
        add_used(out, cells[k * MOST_PARTITIONS + p])?;
    }
    Ok(())
}

fn add_newline(out: &mut String) -> Result<(), NoMemory>
    ensures { OnOk result (string_bytes out.new ≡ string_bytes out.old ++ codes "\n") }
{
    out.push_str("\n")
}

fn add_first(out: &mut String, first: usize) -> Result<(), NoMemory>
    ensures { OnOk result (string_bytes out.new ≡ string_bytes out.old ++ (codes "window " ++ decimal first)) }
{
    write!(out, "window {first}")
}

fn add_used(out: &mut String, used: u128) -> Result<(), NoMemory>
    ensures { OnOk result (string_bytes out.new ≡ string_bytes out.old ++ (32 ∷ decimal used)) }
{
    write!(out, " {used}")
}

/// What each partition used in each of so many windows, one after the other from tick 0 on.
fn table_of(
    alloc: Global,
    shape: &Shape,
    windows: usize,
    entries: &[Entry],
) -> Result<Vec<u128>, NoMemory>
    requires shape { IsShape shape.now }
    requires windows { windows ≤ last_tick }
    requires entries { All IsEntry entries.now }
    ensures { IfOk result (λ cells. AreUsed shape.now entries.now windows cells.items) }
{
    let mut cells = zeros(alloc, windows * MOST_PARTITIONS)?;
    let span = u64::from(shape.window) * shape.tick;
    let mut at_hand = 0;
    for e in entries {
        at_hand = tick_of(span, e.from, at_hand);
        add_entry(&mut cells, shape, windows, e, span, at_hand);
    }
    Ok(cells)
}

/// Adds an entry that begins in this window, where a window has so many ns.
fn add_entry(cells: &mut [u128], shape: &Shape, windows: usize, e: &Entry, span: u64, first: u64)
    requires shape { IsShape shape.now }
    requires windows { windows ≤ last_tick }
    requires entry { IsEntry e.now }
    requires span { span ≡ shape.now.window * shape.now.tick }
    requires first { first ≡ e.now.from / span }
    requires near { first * span ≤ last_moment }
    requires places { length cells.old ≡ windows * most_partitions }
    requires room { HaveCellRoom cells.old }
    ensures { HaveEntry shape.now e.now cells.old cells.new }
{
    if let Some(p) = e.billed {
        let past = windows.min(tick_of(span, e.to, first) as usize + 1);
        let first = (first as usize).min(past);
        add_parts(cells, shape, p.index(), first, past, e);
    }
}

/// Adds what lies in the windows from `first` to before `past`.
fn add_parts(
    cells: &mut [u128],
    shape: &Shape,
    partition: usize,
    first: usize,
    past: usize,
    e: &Entry,
)
    requires shape { IsShape shape.now }
    requires partition { partition < most_partitions }
    requires range { first ≤ past }
    requires windows { past ≤ last_tick }
    requires entry { IsEntry e.now }
    requires places { past * most_partitions ≤ length cells.old }
    requires room { HaveCellRoom cells.old }
    ensures { HaveParts shape.now e.now partition first past cells.old cells.new }
{
    for k in first..past {
        cells[k * MOST_PARTITIONS + partition] += u128::from(part_in(shape, k, e));
    }
}

fn part_in(shape: &Shape, k: usize, e: &Entry) -> u64
    requires shape { IsShape shape.now }
    requires window { k ≤ last_tick }
    requires entry { IsEntry e.now }
    ensures same { result ≡ part_in_window shape.now k e.now }
    ensures short { result ≤ longest_tick }
{
    let first = k as u64 * u64::from(shape.window);
    let past = first + u64::from(shape.window);
    overlap(shape.tick, first, past, e.from, e.to)
}
