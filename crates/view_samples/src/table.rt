//! The samples as lines of numbers with commas between them.
ghost use Rattle.std.specs.Prelude.{◌≡◌, ◌+◌, ◌-◌, ◌*◌, ◌<◌, ◌≤◌, ◌++◌, codes, length, string_bytes, IfOk, OnOk};
ghost use Rattle.std.specs.List.{flat_map, range_with_len};
ghost use Rattle.aps_model.specs.After.{state_after};
ghost use Rattle.aps_model.specs.Legal.{IsLegal};
ghost use Rattle.aps_model.specs.Loaded.{finished_ticks};
ghost use Rattle.view_replay.specs.Retraced.{scenario_of_run};
ghost use Rattle.view_samples.specs.Csv.{bit, csv_text, first_cells, head_line, line_of_tick, part_cells, tick_past_lines, row_titles, sample_line};
ghost use Rattle.view_samples.specs.Pass.{IsAtTickBegin};
ghost use Rattle.aps_model.specs.Limits.{last_tick, longest_tick, most_entries, most_partitions};

use crate::pass::Samples;
use crate::sample::Sample;
use aps_model::{History, NoMemory, Order, PartitionRow, finished_ticks};
use std::alloc::Global;
use std::fmt::Write;
use view_replay::rows_after;
use view_texts::text_of;

/// Which ticks are told: from one on, and to before another, or to the last.
#[derive(Clone, Copy)]
pub struct Ticks {
    pub from: u32,
    pub to: Option<u32>,
}

/// The samples of these of the finished ticks, of a history that is legal in this order of turns: a line of titles, and a
/// line for each (docs/FORMATS.md). `NoMemory` comes where memory runs out.
pub fn csv(alloc: Global, history: &History, order: Order, ticks: Ticks) -> Result<String, NoMemory>
    requires legal { IsLegal history.now.scenario order history.now.entries }
    requires few { length history.now.entries ≤ most_entries }
    ensures { IfOk result (λ text. string_bytes text ≡ csv_text history.now.scenario history.now.entries ticks) }
{
    let rows = rows_after(alloc, history, order)?;
    let mut samples = Samples::begin(alloc, history, order)?;
    text_of_samples(alloc, history, rows.as_slice(), &mut samples, ticks)
}

/// The text, by the rows that stand last and a pass that begins.
fn text_of_samples(
    alloc: Global,
    history: &History,
    rows: &[PartitionRow],
    samples: &mut Samples,
    ticks: Ticks,
) -> Result<String, NoMemory>
    requires rows { rows.now ≡ (state_after history.now.scenario history.now.entries).rows }
    requires at { IsAtTickBegin history.now.entries samples.old }
    requires of { scenario_of_run samples.old.cursor.core ≡ history.now.scenario }
    requires first { samples.old.tick ≡ 0 }
    requires few_rows { length rows.now ≤ most_partitions }
    ensures { IfOk result (λ text. string_bytes text ≡ csv_text history.now.scenario history.now.entries ticks) }
{
    let finished = finished_ticks(history.scenario().shape(), history.entries());
    let end = past_of(ticks, finished);
    let mut out = String::new(alloc);
    add_head(&mut out, rows)?;
    add_lines(
        &mut out,
        history,
        rows.len(),
        samples,
        u64::from(ticks.from),
        end,
    )?;
    Ok(out)
}

/// The tick before which the lines end, where so many are finished.
fn past_of(ticks: Ticks, finished: u64) -> u64
    ensures { result ≡ tick_past_lines ticks finished }
{
    match ticks.to {
        Some(to) => finished.min(u64::from(to)),
        None => finished,
    }
}

/// The line of titles.
fn add_head(out: &mut String, rows: &[PartitionRow]) -> Result<(), NoMemory>
    ensures { OnOk result (string_bytes out.new ≡ string_bytes out.old ++ head_line rows.now) }
{
    add_first_titles(out)?;
    add_row_titles(out, rows)?;
    add_newline(out)?;
    Ok(())
}

fn add_first_titles(out: &mut String) -> Result<(), NoMemory>
    ensures { OnOk result (string_bytes out.new ≡ string_bytes out.old ++ codes "end_ns,window,full,steady") }
{
    out.push_str("end_ns,window,full,steady")
}

fn add_row_titles(out: &mut String, rows: &[PartitionRow]) -> Result<(), NoMemory>
    ensures { OnOk result (string_bytes out.new ≡ string_bytes out.old ++ flat_map row_titles rows.now) }
{
    for row in rows {
        add_titles(out, row)?;
    }
    Ok(())
}

fn add_newline(out: &mut String) -> Result<(), NoMemory>
    ensures { OnOk result (string_bytes out.new ≡ string_bytes out.old ++ codes "\n") }
{
    out.push_str("\n")
}

fn add_titles(out: &mut String, row: &PartitionRow) -> Result<(), NoMemory>
    ensures { OnOk result (string_bytes out.new ≡ string_bytes out.old ++ row_titles row.now) }
{
    let name = text_of(&row.name);
    write!(
        out,
        ",{name}_used,{name}_critical,{name}_allowance,{name}_demand"
    )
}

/// A line for each tick from `first` to `end - 1`, which are finished, by a pass that begins.
fn add_lines(
    out: &mut String,
    history: &History,
    rows: usize,
    samples: &mut Samples,
    first: u64,
    end: u64,
) -> Result<(), NoMemory>
    requires rows { rows ≡ length (state_after history.now.scenario history.now.entries).rows }
    requires few_rows { rows ≤ most_partitions }
    requires at { IsAtTickBegin history.now.entries samples.old }
    requires of { scenario_of_run samples.old.cursor.core ≡ history.now.scenario }
    requires first { samples.old.tick ≡ 0 }
    requires finished { end ≤ finished_ticks history.now.scenario.shape history.now.entries }
    requires few { end ≤ last_tick }
    ensures { OnOk result (string_bytes out.new
        ≡ string_bytes out.old ++ flat_map (line_of_tick history.now.scenario history.now.entries) (range_with_len first (end - first))) }
{
    let tick = history.scenario().shape().tick;
    for j in 0..end {
        let sample = samples.next(history);
        if first <= j {
            add_line(out, tick, rows, &sample)?;
        }
    }
    Ok(())
}

fn add_line(out: &mut String, tick: u64, rows: usize, sample: &Sample) -> Result<(), NoMemory>
    requires tick { tick ≤ longest_tick }
    requires rows { rows ≤ most_partitions }
    requires sample { sample.now.tick ≤ last_tick }
    ensures { OnOk result (string_bytes out.new ≡ string_bytes out.old ++ sample_line tick rows sample.now) }
{
    add_first(out, tick, sample)?;
    add_parts(out, sample, rows)?;
    add_newline(out)?;
    Ok(())
}

fn add_parts(out: &mut String, sample: &Sample, rows: usize) -> Result<(), NoMemory>
    requires { rows ≤ most_partitions }
    ensures { OnOk result (string_bytes out.new ≡ string_bytes out.old ++ flat_map (part_cells sample.now) (range_with_len 0 rows)) }
{
    for p in 0..rows {
        add_part(out, sample, p)?;
    }
    Ok(())
}

fn add_first(out: &mut String, tick: u64, sample: &Sample) -> Result<(), NoMemory>
    requires tick { tick ≤ longest_tick }
    requires sample { sample.now.tick ≤ last_tick }
    ensures { OnOk result (string_bytes out.new ≡ string_bytes out.old ++ first_cells tick sample.now) }
{
    let end = (sample.tick + 1) * tick;
    let window = sample.window;
    let full = bit(sample.full);
    let steady = bit(sample.steady);
    write!(out, "{end},{window},{full},{steady}")
}

fn add_part(out: &mut String, sample: &Sample, p: usize) -> Result<(), NoMemory>
    requires { p < most_partitions }
    ensures { OnOk result (string_bytes out.new ≡ string_bytes out.old ++ part_cells sample.now p) }
{
    let used = sample.usage.used[p];
    let critical = sample.usage.critical[p];
    let allowance = sample.allowance[p];
    let demand = bit(sample.demand[p]);
    write!(out, ",{used},{critical},{allowance},{demand}")
}

fn bit(is_so: bool) -> u8
    ensures { result ≡ bit is_so }
{
    if is_so { 1 } else { 0 }
}
