//! The lines of the summary.
ghost use Rattle.std.specs.Prelude.{◌≡◌, ◌++◌, ◌∷◌, [], codes, decimal, length, string_bytes, OnOk, Some};
ghost use Rattle.aps_model.specs.declared.entry.End.TheVariants.{Reboot};
ghost use Rattle.aps_model.specs.Report.{end_line, shape_line};
ghost use Rattle.aps_model.specs.Journal.{line_of};
ghost use Rattle.aps_report.specs.Lines.{partition_text, thread_text};

use aps_model::{End, Name, NoMemory, PartitionId, PartitionRow, Shape};
use std::fmt::Write;
use std::str::from_utf8;

/// A name as text.
fn text_of(name: &Name) -> &str
    ensures { result.now ≡ name.now }
{
    match from_utf8(name.text()) {
        Ok(text) => text,
        Err(_) => unreachable!(),
    }
}

/// The first line of a summary.
pub fn add_title(out: &mut String) -> Result<(), NoMemory>
    ensures { OnOk result (string_bytes out.new ≡ string_bytes out.old ++ codes "aps summary 1\n") }
{
    out.push_str("aps summary 1\n")
}

/// How the run ended.
pub fn add_end(out: &mut String, end: &Option<End>) -> Result<(), NoMemory>
    ensures { OnOk result (string_bytes out.new ≡ string_bytes out.old ++ end_line end.now) }
{
    match end {
        None => write!(out, "end\n"),
        Some(End::Horizon) => write!(out, "end horizon\n"),
        Some(End::Limit) => write!(out, "end limit\n"),
        Some(End::Reboot(p)) => add_reboot(out, *p),
    }
}

fn add_reboot(out: &mut String, p: PartitionId) -> Result<(), NoMemory>
    ensures { OnOk result (string_bytes out.new ≡ string_bytes out.old ++ end_line (Some (Reboot p))) }
{
    let id = p.index();
    write!(out, "end reboot {id}\n")
}

pub fn add_shape(out: &mut String, shape: &Shape) -> Result<(), NoMemory>
    ensures { OnOk result (string_bytes out.new ≡ string_bytes out.old ++ shape_line shape.now) }
{
    let Shape {
        cpus,
        tick,
        window,
        ticks,
        ..
    } = *shape;
    write!(
        out,
        "shape cpus {cpus} tick {tick} window {window} ticks {ticks}\n"
    )
}

pub fn add_count(out: &mut String, entries: usize) -> Result<(), NoMemory>
    ensures { OnOk result (string_bytes out.new ≡ string_bytes out.old ++ line_of (codes "entries" ∷ decimal entries ∷ [])) }
{
    write!(out, "entries {entries}\n")
}

pub fn add_idle(out: &mut String, idle: u128) -> Result<(), NoMemory>
    ensures { OnOk result (string_bytes out.new ≡ string_bytes out.old ++ line_of (codes "idle" ∷ decimal idle ∷ [])) }
{
    write!(out, "idle {idle}\n")
}

pub fn add_partition(
    out: &mut String,
    id: usize,
    row: &PartitionRow,
    billed: u128,
    critical: u128,
) -> Result<(), NoMemory>
    ensures { OnOk result (string_bytes out.new ≡ string_bytes out.old ++ partition_text id row.now billed critical) }
{
    let name = text_of(&row.name);
    let budget = row.budget;
    write!(
        out,
        "partition {id} {name} budget {budget} billed {billed} critical {critical}\n"
    )
}

pub fn add_thread(out: &mut String, id: usize, name: &Name, ran: u128) -> Result<(), NoMemory>
    ensures { OnOk result (string_bytes out.new ≡ string_bytes out.old ++ thread_text id name.now ran) }
{
    let name = text_of(name);
    write!(out, "thread {id} {name} ran {ran}\n")
}
