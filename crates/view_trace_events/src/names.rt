//! The events that name the tracks of a trace, and order them.
ghost use Rattle.std.specs.Prelude.{◌≡◌, ◌≤◌, ◌++◌, length, string_bytes, IsErrOf, OnOk};
ghost use Rattle.std.specs.List.{flat_map, enumerate_from, range_with_len};
ghost use Rattle.aps_io.specs.Causes.{Rose};
ghost use Rattle.view_trace_events.specs.Names as spec;
ghost use Rattle.view_texts.specs.Piece.{IsTold};
ghost use Rattle.aps_model.specs.Limits.{most_cpus, most_partitions, most_threads};

use crate::place::add_track;
use crate::tracks::{Track, of_partition, of_processor, of_processors, of_thread};
use aps_io::Sink;
use aps_model::{CpuId, Name, NoMemory, PartitionId, PartitionRow, ThreadId, ThreadRow};
use std::fmt::Write;
use view_texts::{TraceFault, make_room, text_of};

/// The head of a trace with its first event, and the names of so many processors.
pub fn add_processors(out: &mut String, cpus: u8) -> Result<(), NoMemory>
    requires { cpus ≤ most_cpus }
    ensures { OnOk result (string_bytes out.new ≡ string_bytes out.old ++ spec.processors_text cpus) }
{
    add_first(out)?;
    add_each_processor(out, cpus)
}

/// The head of a trace with its first event, which names the process of the processors.
fn add_first(out: &mut String) -> Result<(), NoMemory>
    ensures { OnOk result (string_bytes out.new ≡ string_bytes out.old ++ spec.first_text) }
{
    out.push_str(
        "{\"displayTimeUnit\":\"ns\",\"traceEvents\":[\n{\"ph\":\"M\",\"name\":\"process_name\"",
    )?;
    add_track(out, of_processors())?;
    out.push_str(",\"args\":{\"name\":\"processors\"}}")?;
    add_index(out, "process", of_processors(), 0)
}

fn add_each_processor(out: &mut String, cpus: u8) -> Result<(), NoMemory>
    requires { cpus ≤ most_cpus }
    ensures { OnOk result (string_bytes out.new ≡ string_bytes out.old ++ flat_map spec.processor_names (range_with_len 0 cpus)) }
{
    for c in 0..usize::from(cpus) {
        add_processor(out, CpuId::at(c))?;
    }
    Ok(())
}

fn add_processor(out: &mut String, c: CpuId) -> Result<(), NoMemory>
    ensures { OnOk result (string_bytes out.new ≡ string_bytes out.old ++ spec.processor_names c) }
{
    let track = of_processor(c);
    let number = c.index();
    add_head(out, "thread_name", track)?;
    write!(out, "cpu {number}\"}}}}")?;
    add_index(out, "thread", track, number)
}

/// The names of the partitions.
pub fn write_partitions<K: Sink>(
    sink: &mut K,
    out: &mut String,
    rows: &[PartitionRow],
) -> Result<(), TraceFault>
    requires { length rows.now ≤ most_partitions }
    ensures told { OnOk result (IsTold (K.written sink.old) (K.written sink.new) (string_bytes out.old) (string_bytes out.new)
        (flat_map spec.partition_names (enumerate_from 0 rows.now))) }
    ensures fault { IsErrOf result TraceFault.WriteFault → Rose (K.faults sink.old) (K.faults sink.new) }
    ensures later { K.faults sink.old ≤ K.faults sink.new }
{
    for (p, row) in rows.iter().enumerate() {
        add_partition(out, PartitionId::at(p), &row.name)?;
        make_room(sink, out)?;
    }
    Ok(())
}

fn add_partition(out: &mut String, p: PartitionId, name: &Name) -> Result<(), NoMemory>
    ensures { OnOk result (string_bytes out.new ≡ string_bytes out.old ++ spec.named_partition p name.now) }
{
    let track = of_partition(p);
    let name = text_of(name);
    add_head(out, "process_name", track)?;
    write!(out, "partition {name}\"}}}}")?;
    add_index(out, "process", track, p.index() + 1)
}

/// The names of the threads.
pub fn write_threads<K: Sink>(
    sink: &mut K,
    out: &mut String,
    threads: &[ThreadRow],
) -> Result<(), TraceFault>
    requires { length threads.now ≤ most_threads }
    ensures told { OnOk result (IsTold (K.written sink.old) (K.written sink.new) (string_bytes out.old) (string_bytes out.new)
        (flat_map (spec.thread_names threads.now) (enumerate_from 0 threads.now))) }
    ensures fault { IsErrOf result TraceFault.WriteFault → Rose (K.faults sink.old) (K.faults sink.new) }
    ensures later { K.faults sink.old ≤ K.faults sink.new }
{
    for (x, row) in threads.iter().enumerate() {
        let track = of_thread(threads, ThreadId::at(x));
        add_thread(out, track, x, &row.name)?;
        make_room(sink, out)?;
    }
    Ok(())
}

fn add_thread(out: &mut String, track: Track, place: usize, name: &Name) -> Result<(), NoMemory>
    ensures { OnOk result (string_bytes out.new ≡ string_bytes out.old ++ spec.named_thread track place name.now) }
{
    let name = text_of(name);
    add_head(out, "thread_name", track)?;
    write!(out, "{name}\"}}}}")?;
    add_index(out, "thread", track, place)
}

/// The event of this kind that names a process or a thread, up to that name.
fn add_head(out: &mut String, kind: &str, track: Track) -> Result<(), NoMemory>
    ensures { OnOk result (string_bytes out.new ≡ string_bytes out.old ++ spec.track_head_text kind.now track) }
{
    write!(out, ",\n{{\"ph\":\"M\",\"name\":\"{kind}\"")?;
    add_track(out, track)?;
    out.push_str(",\"args\":{\"name\":\"")
}

/// The event that says at which place a process or a thread stands.
fn add_index(out: &mut String, kind: &str, track: Track, place: usize) -> Result<(), NoMemory>
    ensures { OnOk result (string_bytes out.new ≡ string_bytes out.old ++ spec.index_event kind.now track place) }
{
    write!(out, ",\n{{\"ph\":\"M\",\"name\":\"{kind}_sort_index\"")?;
    add_track(out, track)?;
    write!(out, ",\"args\":{{\"sort_index\":{place}}}}}")
}
