//! A save file for the viewer of a value change dump: which signals it shows, in which order.
ghost use Rattle.std.specs.Prelude.{◌≡◌, ◌≤◌, ◌++◌, length, string_bytes, IfOk, OnOk};
ghost use Rattle.std.specs.List.{flat_map, range_with_len};
ghost use Rattle.aps_model.specs.Legal.{IsLegal};
ghost use Rattle.aps_model.specs.Limits.{most_cpus, most_entries};
ghost use Rattle.laws_runs.specs.Moments.{moment};
ghost use Rattle.view_value_changes.specs.Save as spec;

use aps_model::{Entry, History, Nanos, NoMemory, Order, PartitionRow};
use std::alloc::Global;
use std::fmt::Write;
use view_replay::rows_after;
use view_texts::text_of;

/// How many markers the viewer has.
const MARKERS: usize = 26;

/// The save file for the dump of a history, which is legal in this order of turns: the processors and the partitions under
/// headings, and usages as steps (docs/FORMATS.md). `NoMemory` comes where memory runs out.
pub fn gtkw(alloc: Global, history: &History, order: Order) -> Result<String, NoMemory>
    requires legal { IsLegal history.now.scenario order history.now.entries }
    requires few { length history.now.entries ≤ most_entries }
    ensures { IfOk result (λ text. string_bytes text ≡ spec.save_text history.now.scenario history.now.entries) }
{
    let rows = rows_after(alloc, history, order)?;
    let mut out = String::new(alloc);
    let cpus = usize::from(history.scenario().shape().cpus);
    add_zoom(&mut out, end_of(history.entries()))?;
    add_processors(&mut out, cpus)?;
    add_partitions(&mut out, &rows)?;
    Ok(out)
}

/// Where the last entry ends, in ns; 0 where there is none.
fn end_of(entries: &[Entry]) -> Nanos
    ensures { result ≡ moment entries.now }
{
    match entries.last() {
        Some(e) => e.to,
        None => 0,
    }
}

/// How much is seen at once: all, by the binary digits of the end.
fn add_zoom(out: &mut String, end: Nanos) -> Result<(), NoMemory>
    ensures { OnOk result (string_bytes out.new ≡ string_bytes out.old ++ spec.zoom_text end) }
{
    let digits = 64u32.saturating_sub(end.leading_zeros());
    let zoom = digits.saturating_sub(2);
    write!(out, "*-{zoom}.000000 0")?;
    add_no_markers(out)?;
    out.push_str("\n")
}

fn add_no_markers(out: &mut String) -> Result<(), NoMemory>
    ensures { OnOk result (string_bytes out.new ≡ string_bytes out.old ++ flat_map spec.no_marker (range_with_len 0 spec.markers)) }
{
    for _ in 0..MARKERS {
        out.push_str(" -1")?;
    }
    Ok(())
}

fn add_processors(out: &mut String, cpus: usize) -> Result<(), NoMemory>
    requires { cpus ≤ most_cpus }
    ensures { OnOk result (string_bytes out.new ≡ string_bytes out.old ++ flat_map spec.cpu_group (range_with_len 0 cpus)) }
{
    for c in 0..cpus {
        add_processor(out, c)?;
    }
    Ok(())
}

fn add_processor(out: &mut String, c: usize) -> Result<(), NoMemory>
    ensures { OnOk result (string_bytes out.new ≡ string_bytes out.old ++ spec.cpu_group c) }
{
    write!(out, "@200\n-cpu {c}\n")?;
    write!(out, "@2000\napsim.cpus.cpu{c}.thread\n")?;
    write!(out, "@2000\napsim.cpus.cpu{c}.billed\n")?;
    write!(out, "@28\napsim.cpus.cpu{c}.critical\n")
}

fn add_partitions(out: &mut String, rows: &[PartitionRow]) -> Result<(), NoMemory>
    ensures { OnOk result (string_bytes out.new ≡ string_bytes out.old ++ flat_map spec.row_group rows.now) }
{
    for row in rows {
        add_partition(out, text_of(&row.name))?;
    }
    Ok(())
}

fn add_partition(out: &mut String, name: &str) -> Result<(), NoMemory>
    ensures { OnOk result (string_bytes out.new ≡ string_bytes out.old ++ spec.partition_group name.now) }
{
    write!(out, "@200\n-partition {name}\n")?;
    write!(out, "@8424\napsim.partitions.{name}.used[39:0]\n")?;
    out.push_str("@20000\n-\n@20000\n-\n")?;
    add_bits(out, name)
}

fn add_bits(out: &mut String, name: &str) -> Result<(), NoMemory>
    ensures { OnOk result (string_bytes out.new ≡ string_bytes out.old ++ spec.bit_entries name.now) }
{
    add_bit(out, name, "in_budget")?;
    add_bit(out, name, "standing")?;
    add_bit(out, name, "demand")?;
    add_bit(out, name, "overspent")
}

fn add_bit(out: &mut String, name: &str, signal: &str) -> Result<(), NoMemory>
    ensures { OnOk result (string_bytes out.new ≡ string_bytes out.old ++ spec.bit_entry name.now signal.now) }
{
    write!(out, "@28\napsim.partitions.{name}.{signal}\n")
}
