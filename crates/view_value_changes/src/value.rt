//! What signals of a dump stand at.
ghost use Rattle.std.specs.Prelude.{◌≡◌, ◌≢◌, ◌++◌, true, false, not, string_bytes, OnOk};
ghost use Rattle.view_value_changes.specs.Changes.{is_same};
ghost use Rattle.view_value_changes.specs.Value as spec;

use crate::code::add_code;
use crate::kind::Kind;
use aps_model::{NoMemory, PartitionId, PartitionRow, ThreadId, ThreadRow};
use std::fmt::Write;
use view_marks::text::{row_name, thread_name};

/// What a signal stands at.
#[derive(Clone, Copy, PartialEq, Eq)]
pub enum Value {
    Thread(Option<ThreadId>),
    Partition(Option<PartitionId>),
    Kind(Kind),
    Number(u64),
    Bit(bool),
}

/// Whether a signal changes that stood at one value and stands at another now.
pub fn is_change(before: &Value, now: &Value) -> bool
    ensures { result ≡ not (is_same before.now now.now) }
{
    differs(before, now)
}

/// Whether the two values are different ones.
fn differs(before: &Value, now: &Value) -> bool
    ensures told { result ≡ true → before.now ≢ now.now }
    ensures untold { result ≡ false → before.now ≡ now.now }
{
    before != now
}

/// The line by which a signal takes a value. Threads and partitions are told by their names.
pub fn add_value(
    out: &mut String,
    threads: &[ThreadRow],
    rows: &[PartitionRow],
    signal: usize,
    value: &Value,
) -> Result<(), NoMemory>
    ensures { OnOk result (string_bytes out.new ≡ string_bytes out.old ++ spec.value_line threads.now rows.now signal value.now) }
{
    match value {
        Value::Thread(x) => add_word(out, signal, thread_word(threads, x)),
        Value::Partition(p) => add_word(out, signal, partition_word(rows, p)),
        Value::Kind(kind) => add_word(out, signal, kind.word()),
        Value::Number(number) => add_number(out, signal, *number),
        Value::Bit(is_set) => add_bit(out, signal, *is_set),
    }
}

/// The name of the thread, or `-` for nobody.
fn thread_word<'a>(threads: &'a [ThreadRow], x: &Option<ThreadId>) -> &'a str
    ensures { result.now ≡ spec.thread_word threads.now x.now }
{
    match x {
        Some(x) => thread_name(threads, *x),
        None => "-",
    }
}

/// The name of the partition, or `-` for none.
fn partition_word<'a>(rows: &'a [PartitionRow], p: &Option<PartitionId>) -> &'a str
    ensures { result.now ≡ spec.partition_word rows.now p.now }
{
    match p {
        Some(p) => row_name(rows, *p),
        None => "-",
    }
}

fn add_word(out: &mut String, signal: usize, word: &str) -> Result<(), NoMemory>
    ensures { OnOk result (string_bytes out.new ≡ string_bytes out.old ++ spec.word_line signal word.now) }
{
    out.push_str("s")?;
    out.push_str(word)?;
    out.push_str(" ")?;
    add_code(out, signal)?;
    out.push_str("\n")
}

fn add_number(out: &mut String, signal: usize, number: u64) -> Result<(), NoMemory>
    ensures { OnOk result (string_bytes out.new ≡ string_bytes out.old ++ spec.number_line signal number) }
{
    write!(out, "b{number:b} ")?;
    add_code(out, signal)?;
    out.push_str("\n")
}

fn add_bit(out: &mut String, signal: usize, is_set: bool) -> Result<(), NoMemory>
    ensures { OnOk result (string_bytes out.new ≡ string_bytes out.old ++ spec.bit_line signal is_set) }
{
    out.push_str(if is_set { "1" } else { "0" })?;
    add_code(out, signal)?;
    out.push_str("\n")
}
