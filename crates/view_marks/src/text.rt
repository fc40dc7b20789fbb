//! The words of an alteration.
ghost use Rattle.std.specs.Prelude.{◌≡◌, ◌++◌, string_bytes, OnOk};
ghost use Rattle.view_marks.specs.Text as spec;

use crate::alteration::{Alteration, Altered};
use aps_model::{NoMemory, PartitionId, PartitionRow, ThreadId, ThreadRow};
use std::fmt::Write;
use view_texts::text_of;

/// What was altered, as words with spaces between them, and ` refused` behind it where it was; by the threads of the scenario and the
/// rows that stand last.
pub fn add_alteration(
    out: &mut String,
    threads: &[ThreadRow],
    rows: &[PartitionRow],
    alteration: &Alteration,
) -> Result<(), NoMemory>
    ensures { OnOk result (string_bytes out.new ≡ string_bytes out.old ++ spec.alteration_text threads.now rows.now alteration.now) }
{
    add_altered(out, threads, rows, &alteration.altered)?;
    if alteration.refused {
        out.push_str(" refused")?;
    }
    Ok(())
}

fn add_altered(
    out: &mut String,
    threads: &[ThreadRow],
    rows: &[PartitionRow],
    altered: &Altered,
) -> Result<(), NoMemory>
    ensures { OnOk result (string_bytes out.new ≡ string_bytes out.old ++ spec.altered_text threads.now rows.now altered.now) }
{
    match altered {
        Altered::Create(name) => add_words(out, "create ", text_of(name)),
        Altered::Modify(name) => add_words(out, "modify ", text_of(name)),
        Altered::SetParameters => out.push_str("set_parameters"),
        Altered::MarkCritical(x) => add_words(out, "mark_critical ", thread_name(threads, *x)),
        Altered::ClearCritical(x) => add_words(out, "clear_critical ", thread_name(threads, *x)),
        Altered::Cancel(p) => add_words(out, "cancel ", row_name(rows, *p)),
    }
}

fn add_words(out: &mut String, word: &str, name: &str) -> Result<(), NoMemory>
    ensures { OnOk result (string_bytes out.new ≡ string_bytes out.old ++ (word.now ++ name.now)) }
{
    out.push_str(word)?;
    out.push_str(name)
}

/// The name of a thread, by the scenario's threads.
pub fn thread_name(threads: &[ThreadRow], x: ThreadId) -> &str
    ensures { result.now ≡ spec.thread_name threads.now x }
{
    match threads.get(x.index()) {
        Some(row) => text_of(&row.name),
        None => "",
    }
}

/// The name of a partition, by the rows.
pub fn row_name(rows: &[PartitionRow], p: PartitionId) -> &str
    ensures { result.now ≡ spec.partition_row_name rows.now p }
{
    match rows.get(p.index()) {
        Some(row) => text_of(&row.name),
        None => "",
    }
}
