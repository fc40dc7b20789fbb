//! The events that tell usages and allowances, by tick.
ghost use Rattle.std.specs.Prelude.{◌≡◌, ◌≤◌, ◌++◌, length, string_bytes, IsErrOf, OnOk};
ghost use Rattle.aps_io.specs.Causes.{Rose};
ghost use Rattle.aps_model.specs.Legal.{IsLegal};
ghost use Rattle.aps_model.specs.Loaded.{finished_ticks};
ghost use Rattle.view_replay.specs.Retraced.{scenario_of_run};
ghost use Rattle.view_samples.specs.Pass.{IsAtTickBegin};
ghost use Rattle.view_trace_events.specs.Counters as spec;
ghost use Rattle.view_texts.specs.Piece.{IsTold};
ghost use Rattle.aps_model.specs.Limits.{last_partition, last_tick, longest_tick, most_entries, most_partitions};

use crate::tracks::{Track, of_partition};
use crate::words::add_us;
use aps_io::Sink;
use aps_model::{History, Nanos, NoMemory, Order, PartitionId, finished_ticks};
use std::alloc::Global;
use std::fmt::Write;
use view_samples::{Sample, Samples};
use view_texts::{TraceFault, make_room};

/// Of the first so many partitions, events for the values in the window that ends with each finished tick, where one differs
/// from what was told last. The history is legal in this order of turns.
pub fn write_counters<K: Sink>(
    alloc: Global,
    sink: &mut K,
    out: &mut String,
    history: &History,
    order: Order,
    rows: usize,
) -> Result<(), TraceFault>
    requires legal { IsLegal history.now.scenario order history.now.entries }
    requires few { length history.now.entries ≤ most_entries }
    requires few_rows { rows ≤ most_partitions }
    ensures told { OnOk result (IsTold (K.written sink.old) (K.written sink.new) (string_bytes out.old) (string_bytes out.new)
        (spec.counters_text history.now.scenario history.now.entries rows)) }
    ensures fault { IsErrOf result TraceFault.WriteFault → Rose (K.faults sink.old) (K.faults sink.new) }
    ensures later { K.faults sink.old ≤ K.faults sink.new }
{
    let mut samples = Samples::begin(alloc, history, order)?;
    write_ticks(sink, out, history, rows, &mut samples)
}

/// The same, by a pass that begins.
fn write_ticks<K: Sink>(
    sink: &mut K,
    out: &mut String,
    history: &History,
    rows: usize,
    samples: &mut Samples,
) -> Result<(), TraceFault>
    requires few_rows { rows ≤ most_partitions }
    requires at { IsAtTickBegin history.now.entries samples.old }
    requires of { scenario_of_run samples.old.cursor.core ≡ history.now.scenario }
    requires first { samples.old.tick ≡ 0 }
    ensures told { OnOk result (IsTold (K.written sink.old) (K.written sink.new) (string_bytes out.old) (string_bytes out.new)
        (spec.counters_text history.now.scenario history.now.entries rows)) }
    ensures fault { IsErrOf result TraceFault.WriteFault → Rose (K.faults sink.old) (K.faults sink.new) }
    ensures later { K.faults sink.old ≤ K.faults sink.new }
{
    let tick = history.scenario().shape().tick;
    let finished = finished_ticks(history.scenario().shape(), history.entries());
    let mut before = None;
    for _ in 0..finished {
        let sample = samples.next(history);
        add_sample(out, tick, rows, &before, &sample)?;
        before = Some(sample);
        make_room(sink, out)?;
    }
    Ok(())
}

/// The values of each of so many partitions of which one differs from that in the sample before this.
fn add_sample(
    out: &mut String,
    tick: Nanos,
    rows: usize,
    before: &Option<Sample>,
    sample: &Sample,
) -> Result<(), NoMemory>
    requires tick { tick ≤ longest_tick }
    requires rows { rows ≤ most_partitions }
    requires sample { sample.now.tick ≤ last_tick }
    ensures { OnOk result (string_bytes out.new ≡ string_bytes out.old ++ spec.sample_events tick rows before.now sample.now) }
{
    let moment = (sample.tick + 1) * tick;
    for p in 0..rows {
        add_partition(out, moment, before, sample, PartitionId::at(p))?;
    }
    Ok(())
}

/// The values of a partition at this moment, where one differs from that in the sample before this.
fn add_partition(
    out: &mut String,
    moment: Nanos,
    before: &Option<Sample>,
    sample: &Sample,
    p: PartitionId,
) -> Result<(), NoMemory>
    ensures { OnOk result (string_bytes out.new ≡ string_bytes out.old ++ spec.partition_counters moment before.now sample.now p) }
{
    if is_told(before, sample, p) {
        return Ok(());
    }
    add_values(out, moment, sample, p)
}

/// Whether a sample came before this, with the same values of the partition.
fn is_told(before: &Option<Sample>, sample: &Sample, p: PartitionId) -> bool
    ensures { result ≡ spec.is_told before.now sample.now p }
{
    match before {
        Some(before) => is_same(before, sample, p.index()),
        None => false,
    }
}

fn is_same(before: &Sample, sample: &Sample, p: usize) -> bool
    requires { p ≤ last_partition }
    ensures { result ≡ spec.is_same_usage before.now sample.now p }
{
    before.usage.used[p] == sample.usage.used[p]
        && before.usage.critical[p] == sample.usage.critical[p]
        && before.allowance[p] == sample.allowance[p]
}

fn add_values(
    out: &mut String,
    moment: Nanos,
    sample: &Sample,
    p: PartitionId,
) -> Result<(), NoMemory>
    ensures { OnOk result (string_bytes out.new ≡ string_bytes out.old ++ spec.values_events moment sample.now p) }
{
    let place = p.index();
    add_value(out, "used", moment, p, sample.usage.used[place])?;
    add_value(
        out,
        "critical used",
        moment,
        p,
        sample.usage.critical[place],
    )?;
    add_value(out, "allowance", moment, p, sample.allowance[place])
}

fn add_value(
    out: &mut String,
    name: &str,
    moment: Nanos,
    p: PartitionId,
    ns: Nanos,
) -> Result<(), NoMemory>
    ensures { OnOk result (string_bytes out.new ≡ string_bytes out.old ++ spec.value_event name.now moment p ns) }
{
    let Track { process, .. } = of_partition(p);
    write!(
        out,
        ",\n{{\"ph\":\"C\",\"name\":\"{name}\",\"pid\":{process},\"ts\":"
    )?;
    add_us(out, moment)?;
    write!(out, ",\"args\":{{\"ns\":{ns}}}}}")
}
