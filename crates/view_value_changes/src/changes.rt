//! What a dump tells at a moment.
ghost use Rattle.std.specs.Prelude.{◌≡◌, ◌++◌, string_bytes, OnOk};
ghost use Rattle.std.specs.List.{flat_map, enumerate_from};
ghost use Rattle.view_value_changes.specs.Changes as spec;

use crate::value::{Value, add_value, is_change};
use aps_model::{Nanos, NoMemory, PartitionRow, ThreadRow};
use std::fmt::Write;

/// The values that stand at a moment (ns): all of them where none were told before, and else those that changed. A moment without
/// a change is left out, but for the last.
pub fn add_moment(
    out: &mut String,
    threads: &[ThreadRow],
    rows: &[PartitionRow],
    moment: Nanos,
    is_last: bool,
    before: &[Value],
    now: &[Value],
) -> Result<(), NoMemory>
    ensures { OnOk result (string_bytes out.new ≡ string_bytes out.old
        ++ spec.text_at threads.now rows.now moment is_last before.now now.now) }
{
    if before.is_empty() {
        return add_all(out, threads, rows, moment, now);
    }
    if is_last || is_other(before, now) {
        write!(out, "#{moment}\n")?;
        add_changes(out, threads, rows, before, now)?;
    }
    Ok(())
}

/// All values at the first moment.
fn add_all(
    out: &mut String,
    threads: &[ThreadRow],
    rows: &[PartitionRow],
    moment: Nanos,
    values: &[Value],
) -> Result<(), NoMemory>
    ensures { OnOk result (string_bytes out.new ≡ string_bytes out.old ++ spec.all_text threads.now rows.now moment values.now) }
{
    write!(out, "#{moment}\n$dumpvars\n")?;
    add_values(out, threads, rows, values)?;
    out.push_str("$end\n")
}

fn add_values(
    out: &mut String,
    threads: &[ThreadRow],
    rows: &[PartitionRow],
    values: &[Value],
) -> Result<(), NoMemory>
    ensures { OnOk result (string_bytes out.new
        ≡ string_bytes out.old ++ flat_map (spec.signal_value threads.now rows.now) (enumerate_from 0 values.now)) }
{
    for (signal, value) in values.iter().enumerate() {
        add_value(out, threads, rows, signal, value)?;
    }
    Ok(())
}

/// Whether a signal changes.
fn is_other(before: &[Value], now: &[Value]) -> bool
    ensures { result ≡ spec.is_other before.now now.now }
{
    for signal in 0..now.len().min(before.len()) {
        if is_change(&before[signal], &now[signal]) {
            return true;
        }
    }
    false
}

/// The signals that change.
fn add_changes(
    out: &mut String,
    threads: &[ThreadRow],
    rows: &[PartitionRow],
    before: &[Value],
    now: &[Value],
) -> Result<(), NoMemory>
    ensures { OnOk result (string_bytes out.new ≡ string_bytes out.old ++ spec.changes_text threads.now rows.now before.now now.now) }
{
    for signal in 0..now.len().min(before.len()) {
        add_change(out, threads, rows, signal, &before[signal], &now[signal])?;
    }
    Ok(())
}

/// The signal, if it changes.
fn add_change(
    out: &mut String,
    threads: &[ThreadRow],
    rows: &[PartitionRow],
    signal: usize,
    before: &Value,
    now: &Value,
) -> Result<(), NoMemory>
    ensures { OnOk result (string_bytes out.new ≡ string_bytes out.old ++ spec.change_line threads.now rows.now signal before.now now.now) }
{
    if is_change(before, now) {
        add_value(out, threads, rows, signal, now)?;
    }
    Ok(())
}
