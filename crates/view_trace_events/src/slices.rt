//! The events that last: bars of processors, and what threads do.
ghost use Rattle.std.specs.Prelude.{◌≡◌, ◌≤◌, ◌++◌, length, string_bytes, IsErrOf, OnOk};
ghost use Rattle.std.specs.List.{flat_map, enumerate_from};
ghost use Rattle.aps_io.specs.Causes.{Rose};
ghost use Rattle.view_texts.specs.Piece.{IsTold};
ghost use Rattle.view_trace_events.specs.Slices as spec;
ghost use Rattle.aps_model.specs.Limits.{most_cpus};

use crate::place::add_place;
use crate::tracks::{Track, of_processor, of_thread};
use crate::words::{add_us, bit, channel_name};
use aps_io::Sink;
use aps_model::{CpuId, Nanos, NoMemory, PartitionId, PartitionRow, Scenario, ThreadId, ThreadRow};
use std::fmt::Write;
use view_lives::{Doing, Life, Segment};
use view_marks::text::{row_name, thread_name};
use view_marks::{Bar, Lane};
use view_texts::{TraceFault, make_room};

/// An event for each bar of each processor.
pub fn write_lanes<K: Sink>(
    sink: &mut K,
    out: &mut String,
    threads: &[ThreadRow],
    rows: &[PartitionRow],
    lanes: &[Lane],
) -> Result<(), TraceFault>
    requires { length lanes.now ≤ most_cpus }
    ensures told { OnOk result (IsTold (K.written sink.old) (K.written sink.new) (string_bytes out.old) (string_bytes out.new)
        (flat_map (spec.lane_events threads.now rows.now) (enumerate_from 0 lanes.now))) }
    ensures fault { IsErrOf result TraceFault.WriteFault → Rose (K.faults sink.old) (K.faults sink.new) }
    ensures later { K.faults sink.old ≤ K.faults sink.new }
{
    for (c, lane) in lanes.iter().enumerate() {
        let track = of_processor(CpuId::at(c));
        write_bars(sink, out, threads, rows, track, lane.bars())?;
    }
    Ok(())
}

fn write_bars<K: Sink>(
    sink: &mut K,
    out: &mut String,
    threads: &[ThreadRow],
    rows: &[PartitionRow],
    track: Track,
    bars: &[Bar],
) -> Result<(), TraceFault>
    ensures told { OnOk result (IsTold (K.written sink.old) (K.written sink.new) (string_bytes out.old) (string_bytes out.new)
        (flat_map (spec.bar_event threads.now rows.now track) bars.now)) }
    ensures fault { IsErrOf result TraceFault.WriteFault → Rose (K.faults sink.old) (K.faults sink.new) }
    ensures later { K.faults sink.old ≤ K.faults sink.new }
{
    for bar in bars {
        add_bar(out, threads, rows, track, bar)?;
        make_room(sink, out)?;
    }
    Ok(())
}

fn add_bar(
    out: &mut String,
    threads: &[ThreadRow],
    rows: &[PartitionRow],
    track: Track,
    bar: &Bar,
) -> Result<(), NoMemory>
    ensures { OnOk result (string_bytes out.new ≡ string_bytes out.old ++ spec.bar_event threads.now rows.now track bar.now) }
{
    add_start(out, "", thread_name(threads, bar.thread))?;
    add_span(out, track, bar.from, bar.to)?;
    out.push_str("{")?;
    add_bill(out, rows, bar.partition, bar.critical)
}

/// An event for each segment of each thread's life.
pub fn write_lives<K: Sink>(
    sink: &mut K,
    out: &mut String,
    scenario: &Scenario,
    rows: &[PartitionRow],
    lives: &[Life],
) -> Result<(), TraceFault>
    requires { length lives.now ≡ length scenario.now.threads }
    ensures told { OnOk result (IsTold (K.written sink.old) (K.written sink.new) (string_bytes out.old) (string_bytes out.new)
        (flat_map (spec.life_events scenario.now rows.now) (enumerate_from 0 lives.now))) }
    ensures fault { IsErrOf result TraceFault.WriteFault → Rose (K.faults sink.old) (K.faults sink.new) }
    ensures later { K.faults sink.old ≤ K.faults sink.new }
{
    let threads = scenario.threads();
    for (x, life) in lives.iter().enumerate() {
        let track = of_thread(threads, ThreadId::at(x));
        write_segments(sink, out, scenario, rows, track, life.segments())?;
    }
    Ok(())
}

fn write_segments<K: Sink>(
    sink: &mut K,
    out: &mut String,
    scenario: &Scenario,
    rows: &[PartitionRow],
    track: Track,
    segments: &[Segment],
) -> Result<(), TraceFault>
    ensures told { OnOk result (IsTold (K.written sink.old) (K.written sink.new) (string_bytes out.old) (string_bytes out.new)
        (flat_map (spec.segment_event scenario.now rows.now track) segments.now)) }
    ensures fault { IsErrOf result TraceFault.WriteFault → Rose (K.faults sink.old) (K.faults sink.new) }
    ensures later { K.faults sink.old ≤ K.faults sink.new }
{
    for segment in segments {
        add_segment(out, scenario, rows, track, segment)?;
        make_room(sink, out)?;
    }
    Ok(())
}

fn add_segment(
    out: &mut String,
    scenario: &Scenario,
    rows: &[PartitionRow],
    track: Track,
    segment: &Segment,
) -> Result<(), NoMemory>
    ensures { OnOk result (string_bytes out.new ≡ string_bytes out.old ++ spec.segment_event scenario.now rows.now track segment.now) }
{
    add_doing(out, scenario, &segment.doing)?;
    add_span(out, track, segment.from, segment.to)?;
    add_details(out, rows, &segment.doing)
}

/// The begin of an event, by what a thread does.
fn add_doing(out: &mut String, scenario: &Scenario, doing: &Doing) -> Result<(), NoMemory>
    ensures { OnOk result (string_bytes out.new ≡ string_bytes out.old ++ spec.doing_start scenario.now doing.now) }
{
    match doing {
        Doing::Ready => add_start(out, "ready", ""),
        Doing::Running { .. } => add_start(out, "running", ""),
        Doing::Sleeping => add_start(out, "sleeping", ""),
        Doing::Sending(c) => add_start(out, "sending ", channel_name(scenario.channels(), *c)),
        Doing::Receiving(c) => add_start(out, "receiving ", channel_name(scenario.channels(), *c)),
        Doing::Replying(x) => add_start(out, "replying ", thread_name(scenario.threads(), *x)),
        Doing::Gone => add_start(out, "gone", ""),
    }
}

/// The end of an event, by what a thread does.
fn add_details(out: &mut String, rows: &[PartitionRow], doing: &Doing) -> Result<(), NoMemory>
    ensures { OnOk result (string_bytes out.new ≡ string_bytes out.old ++ spec.details rows.now doing.now) }
{
    match doing {
        Doing::Running {
            cpu,
            partition,
            critical,
        } => add_running(out, rows, *cpu, *partition, *critical),
        _ => out.push_str("{}}"),
    }
}

fn add_running(
    out: &mut String,
    rows: &[PartitionRow],
    cpu: CpuId,
    partition: PartitionId,
    critical: bool,
) -> Result<(), NoMemory>
    ensures { OnOk result (string_bytes out.new ≡ string_bytes out.old ++ spec.running_details rows.now cpu partition critical) }
{
    let c = cpu.index();
    write!(out, "{{\"cpu\":{c},")?;
    add_bill(out, rows, partition, critical)
}

/// The end of an event: which partition is billed, and whether for critical time.
fn add_bill(
    out: &mut String,
    rows: &[PartitionRow],
    p: PartitionId,
    critical: bool,
) -> Result<(), NoMemory>
    ensures { OnOk result (string_bytes out.new ≡ string_bytes out.old ++ spec.bill_end rows.now p critical) }
{
    let billed = row_name(rows, p);
    let critical = bit(critical);
    write!(out, "\"billed\":\"{billed}\",\"critical\":{critical}}}}}")
}

/// The begin of an event, with its name of two words.
fn add_start(out: &mut String, word: &str, name: &str) -> Result<(), NoMemory>
    ensures { OnOk result (string_bytes out.new ≡ string_bytes out.old ++ spec.start_text word.now name.now) }
{
    write!(
        out,
        ",\n{{\"ph\":\"X\",\"name\":\"{word}{name}\",\"cat\":\"run\""
    )
}

/// Where an event stands, when, and how long it lasts, up to its details.
fn add_span(out: &mut String, track: Track, from: Nanos, to: Nanos) -> Result<(), NoMemory>
    ensures { OnOk result (string_bytes out.new ≡ string_bytes out.old ++ spec.span_text track from to) }
{
    add_place(out, track, from)?;
    out.push_str(",\"dur\":")?;
    add_us(out, to.saturating_sub(from))?;
    out.push_str(",\"args\":")
}
