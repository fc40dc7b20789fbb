//! The summary of a history: how it ended, and who used how much.
ghost use Rattle.std.specs.Prelude.{◌≡◌, ◌≤◌, ◌++◌, length, string_bytes, IfOk, OnOk};
ghost use Rattle.std.specs.List.{flat_map, enumerate_from};
ghost use Rattle.aps_model.specs.Limits.{most_partitions, most_threads};
ghost use Rattle.aps_model.specs.Report.{usage_text, summary_text};
ghost use Rattle.aps_model.specs.Replies.{reply_line};
ghost use Rattle.aps_report.specs.Lines.{partition_with, thread_with, with_head, tables_with};

use crate::audit::add_audit;
use crate::lines::{add_count, add_end, add_idle, add_partition, add_shape, add_thread, add_title};
use crate::replies::add_reply;
use crate::totals::Totals;
use aps_model::{Audit, History, NoMemory, PartitionRow, Reply, ThreadRow};
use std::alloc::Global;

/// The summary without what the audit and the commands add: the end, the sizes, the number of
/// entries, and the nanoseconds that each partition and each thread used. `NoMemory` comes where
/// memory runs out.
pub fn usage(alloc: Global, history: &History) -> Result<String, NoMemory>
    ensures { IfOk result (λ text. string_bytes text ≡ usage_text history.now) }
{
    let totals = Totals::of(alloc, history.entries())?;
    let mut out = String::new(alloc);
    add_head(&mut out, history)?;
    add_tables(&mut out, history, &totals)?;
    Ok(out)
}

/// The whole summary (docs/FORMATS.md, "Summary"): the usage, then what the audit found, then the
/// answers to the timed commands in the order in which they were done. The audit has to be this
/// history's, as `aps_bound::audit` gives it: any other is printed just the same. `NoMemory` comes
/// where memory runs out.
pub fn summary(alloc: Global, history: &History, audit: &Audit) -> Result<String, NoMemory>
    ensures { IfOk result (λ text. string_bytes text ≡ summary_text history.now audit.now) }
{
    let mut out = usage(alloc, history)?;
    add_audit(&mut out, audit)?;
    add_replies(&mut out, history.replies())?;
    Ok(out)
}

fn add_replies(out: &mut String, replies: &[Reply]) -> Result<(), NoMemory>
    ensures { OnOk result (string_bytes out.new ≡ string_bytes out.old ++ flat_map reply_line replies.now) }
{
    for reply in replies {
        add_reply(out, reply)?;
    }
    Ok(())
}

/// How the run ended, its sizes, and how many entries it has.
fn add_head(out: &mut String, history: &History) -> Result<(), NoMemory>
    ensures { OnOk result (string_bytes out.new ≡ with_head (string_bytes out.old) history.now) }
{
    add_title(out)?;
    add_end(out, &history.end())?;
    add_shape(out, history.shape())?;
    add_count(out, history.entries().len())
}

/// Who used how much, by these sums.
fn add_tables(out: &mut String, history: &History, totals: &Totals) -> Result<(), NoMemory>
    ensures text { OnOk result (string_bytes out.new ≡ string_bytes out.old ++ tables_with history.now totals.now) }
    ensures few_rows { length history.now.rows ≤ most_partitions }
    ensures few_threads { length history.now.scenario.threads ≤ most_threads }
{
    let threads = history.scenario().threads();
    add_partitions(out, history.rows(), totals)?;
    add_idle(out, totals.idle())?;
    add_threads(out, threads, totals)
}

fn add_partitions(out: &mut String, rows: &[PartitionRow], totals: &Totals) -> Result<(), NoMemory>
    requires { length rows.now ≤ most_partitions }
    ensures { OnOk result (string_bytes out.new
        ≡ string_bytes out.old ++ flat_map (partition_with totals.now) (enumerate_from 0 rows.now)) }
{
    for (id, row) in rows.iter().enumerate() {
        add_partition(out, id, row, totals.billed(id), totals.critical(id))?;
    }
    Ok(())
}

fn add_threads(out: &mut String, threads: &[ThreadRow], totals: &Totals) -> Result<(), NoMemory>
    requires { length threads.now ≤ most_threads }
    ensures { OnOk result (string_bytes out.new
        ≡ string_bytes out.old ++ flat_map (thread_with totals.now) (enumerate_from 0 threads.now)) }
{
    for (id, thread) in threads.iter().enumerate() {
        add_thread(out, id, &thread.name, totals.ran(id))?;
    }
    Ok(())
}
