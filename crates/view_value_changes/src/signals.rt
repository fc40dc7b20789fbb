//! The head of a value change dump: the signals of each processor, of each partition and of each thread, numbered in this order.
ghost use Rattle.std.specs.Prelude.{◌≡◌, ◌+◌, ◌*◌, ◌<◌, ◌≤◌, ◌++◌, length, string_bytes, OnOk};
ghost use Rattle.std.specs.List.{flat_map, enumerate_from, range_with_len};
ghost use Rattle.aps_model.specs.Limits.{most_cpus, most_partitions, most_threads};
ghost use Rattle.view_value_changes.specs.Signals as spec;

use crate::code::add_code;
use aps_model::{Name, NoMemory, PartitionRow, ThreadRow};
use std::fmt::Write;
use view_texts::text_of;

/// How many signals a processor has.
const SIGNALS_OF_CPU: usize = 3;

/// How many signals a partition has.
const SIGNALS_OF_PARTITION: usize = 7;

/// The head of a dump: its signals by scopes, each with its code.
pub fn add_head(
    out: &mut String,
    cpus: usize,
    rows: &[PartitionRow],
    threads: &[ThreadRow],
) -> Result<(), NoMemory>
    requires cpus { cpus ≤ most_cpus }
    requires rows { length rows.now ≤ most_partitions }
    requires threads { length threads.now ≤ most_threads }
    ensures { OnOk result (string_bytes out.new ≡ string_bytes out.old ++ spec.head_text cpus rows.now threads.now) }
{
    let partitions = SIGNALS_OF_CPU * cpus;
    out.push_str("$version apsim $end\n$timescale 1 ns $end\n$scope module apsim $end\n")?;
    add_processors(out, cpus)?;
    add_partitions(out, partitions, rows)?;
    add_threads(out, partitions + SIGNALS_OF_PARTITION * rows.len(), threads)?;
    out.push_str("$upscope $end\n$enddefinitions $end\n")
}

fn add_module(out: &mut String, name: &str) -> Result<(), NoMemory>
    ensures { OnOk result (string_bytes out.new ≡ string_bytes out.old ++ spec.module_line name.now) }
{
    write!(out, "$scope module {name} $end\n")
}

fn add_end(out: &mut String) -> Result<(), NoMemory>
    ensures { OnOk result (string_bytes out.new ≡ string_bytes out.old ++ spec.scope_end_line) }
{
    out.push_str("$upscope $end\n")
}

/// The signal of this number, by its kind and width.
fn add_signal(out: &mut String, signal: usize, kind: &str, name: &str) -> Result<(), NoMemory>
    ensures { OnOk result (string_bytes out.new ≡ string_bytes out.old ++ spec.signal_line signal kind.now name.now) }
{
    write!(out, "$var {kind} ")?;
    add_code(out, signal)?;
    write!(out, " {name} $end\n")
}

/// The scopes of so many processors.
fn add_processors(out: &mut String, cpus: usize) -> Result<(), NoMemory>
    requires { cpus ≤ most_cpus }
    ensures { OnOk result (string_bytes out.new ≡ string_bytes out.old ++ spec.cpus_text cpus) }
{
    add_module(out, "cpus")?;
    add_each_processor(out, cpus)?;
    add_end(out)
}

fn add_each_processor(out: &mut String, cpus: usize) -> Result<(), NoMemory>
    requires { cpus ≤ most_cpus }
    ensures { OnOk result (string_bytes out.new ≡ string_bytes out.old ++ flat_map spec.cpu_scope (range_with_len 0 cpus)) }
{
    for c in 0..cpus {
        add_processor(out, c)?;
    }
    Ok(())
}

fn add_processor(out: &mut String, c: usize) -> Result<(), NoMemory>
    requires { c < most_cpus }
    ensures { OnOk result (string_bytes out.new ≡ string_bytes out.old ++ spec.cpu_scope c) }
{
    write!(out, "$scope module cpu{c} $end\n")?;
    add_cpu_signals(out, SIGNALS_OF_CPU * c)?;
    add_end(out)
}

/// Whom a processor keeps, on whose bill, and whether that is critical time.
fn add_cpu_signals(out: &mut String, first: usize) -> Result<(), NoMemory>
    requires { first + spec.signals_of_cpu ≤ spec.most_signals }
    ensures { OnOk result (string_bytes out.new ≡ string_bytes out.old ++ spec.cpu_signals first) }
{
    add_signal(out, first, "string 1", "thread")?;
    add_signal(out, first + 1, "string 1", "billed")?;
    add_signal(out, first + 2, "wire 1", "critical")
}

/// The scopes of the partitions, whose signals begin with this number.
fn add_partitions(out: &mut String, first: usize, rows: &[PartitionRow]) -> Result<(), NoMemory>
    requires first { first ≤ spec.signals_of_cpu * most_cpus }
    requires rows { length rows.now ≤ most_partitions }
    ensures { OnOk result (string_bytes out.new ≡ string_bytes out.old ++ spec.partitions_text first rows.now) }
{
    add_module(out, "partitions")?;
    add_each_partition(out, first, rows)?;
    add_end(out)
}

fn add_each_partition(out: &mut String, first: usize, rows: &[PartitionRow]) -> Result<(), NoMemory>
    requires first { first ≤ spec.signals_of_cpu * most_cpus }
    requires rows { length rows.now ≤ most_partitions }
    ensures { OnOk result (string_bytes out.new ≡ string_bytes out.old ++ flat_map (spec.row_scope first) (enumerate_from 0 rows.now)) }
{
    for (p, row) in rows.iter().enumerate() {
        add_partition(out, first + SIGNALS_OF_PARTITION * p, &row.name)?;
    }
    Ok(())
}

fn add_partition(out: &mut String, first: usize, name: &Name) -> Result<(), NoMemory>
    requires { first + spec.signals_of_partition ≤ spec.most_signals }
    ensures { OnOk result (string_bytes out.new ≡ string_bytes out.old ++ spec.partition_scope first name.now) }
{
    add_module(out, text_of(name))?;
    add_amounts(out, first)?;
    add_bits(out, first + 3)?;
    add_end(out)
}

/// What a partition used in the window, what it may use, and what was critical.
fn add_amounts(out: &mut String, first: usize) -> Result<(), NoMemory>
    requires { first + 3 ≤ spec.most_signals }
    ensures { OnOk result (string_bytes out.new ≡ string_bytes out.old ++ spec.amount_signals first) }
{
    add_signal(out, first, "wire 40", "used")?;
    add_signal(out, first + 1, "wire 40", "allowance")?;
    add_signal(out, first + 2, "wire 40", "critical_used")
}

/// Whether a partition is in budget, whether its critical budget stands, and what its last picks tell.
fn add_bits(out: &mut String, first: usize) -> Result<(), NoMemory>
    requires { first + 4 ≤ spec.most_signals }
    ensures { OnOk result (string_bytes out.new ≡ string_bytes out.old ++ spec.bit_signals first) }
{
    add_signal(out, first, "wire 1", "in_budget")?;
    add_signal(out, first + 1, "wire 1", "standing")?;
    add_signal(out, first + 2, "wire 1", "demand")?;
    add_signal(out, first + 3, "wire 1", "overspent")
}

/// The scope of the threads, whose signals begin with this number, if there are any.
fn add_threads(out: &mut String, first: usize, threads: &[ThreadRow]) -> Result<(), NoMemory>
    requires first { first + most_threads ≤ spec.most_signals }
    requires threads { length threads.now ≤ most_threads }
    ensures { OnOk result (string_bytes out.new ≡ string_bytes out.old ++ spec.threads_text first threads.now) }
{
    if threads.is_empty() {
        return Ok(());
    }
    add_module(out, "threads")?;
    add_each_thread(out, first, threads)?;
    add_end(out)
}

fn add_each_thread(out: &mut String, first: usize, threads: &[ThreadRow]) -> Result<(), NoMemory>
    requires first { first + most_threads ≤ spec.most_signals }
    requires threads { length threads.now ≤ most_threads }
    ensures { OnOk result (string_bytes out.new ≡ string_bytes out.old
        ++ flat_map (spec.thread_signal first) (enumerate_from 0 threads.now)) }
{
    for (x, row) in threads.iter().enumerate() {
        add_signal(out, first + x, "string 1", text_of(&row.name))?;
    }
    Ok(())
}
