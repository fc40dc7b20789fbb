//! The events that take no time: overspent budgets, and changes.
ghost use Rattle.std.specs.Prelude.{◌≡◌, ◌≤◌, ◌++◌, string_bytes, IsErrOf, OnOk};
ghost use Rattle.std.specs.List.{flat_map};
ghost use Rattle.aps_io.specs.Causes.{Rose};
ghost use Rattle.view_trace_events.specs.Instants as spec;
ghost use Rattle.view_texts.specs.Piece.{IsTold};

use crate::place::add_place;
use crate::tracks::{of_partition, of_processors};
use aps_io::Sink;
use aps_model::{Nanos, NoMemory, PartitionRow, ThreadRow};
use std::fmt::Write;
use view_marks::Alteration;
use view_marks::text::add_alteration;
use view_samples::Overspent;
use view_texts::{TraceFault, make_room};

/// An event for each entry that made its partition bankrupt.
pub fn write_overspent<K: Sink>(
    sink: &mut K,
    out: &mut String,
    overspent: &[Overspent],
) -> Result<(), TraceFault>
    ensures told { OnOk result (IsTold (K.written sink.old) (K.written sink.new) (string_bytes out.old) (string_bytes out.new)
        (flat_map spec.overspent_event overspent.now)) }
    ensures fault { IsErrOf result TraceFault.WriteFault → Rose (K.faults sink.old) (K.faults sink.new) }
    ensures later { K.faults sink.old ≤ K.faults sink.new }
{
    for one in overspent {
        add_overspent(out, one)?;
        make_room(sink, out)?;
    }
    Ok(())
}

fn add_overspent(out: &mut String, one: &Overspent) -> Result<(), NoMemory>
    ensures { OnOk result (string_bytes out.new ≡ string_bytes out.old ++ spec.overspent_event one.now) }
{
    let excess = one.excess;
    out.push_str(",\n{\"ph\":\"i\",\"s\":\"p\",\"name\":\"overspent\"")?;
    add_place(out, of_partition(one.partition), one.moment)?;
    write!(out, ",\"args\":{{\"ns\":{excess}}}}}")
}

/// An event for each alteration.
pub fn write_alterations<K: Sink>(
    sink: &mut K,
    out: &mut String,
    threads: &[ThreadRow],
    rows: &[PartitionRow],
    alterations: &[Alteration],
) -> Result<(), TraceFault>
    ensures told { OnOk result (IsTold (K.written sink.old) (K.written sink.new) (string_bytes out.old) (string_bytes out.new)
        (flat_map (spec.alteration_event threads.now rows.now) alterations.now)) }
    ensures fault { IsErrOf result TraceFault.WriteFault → Rose (K.faults sink.old) (K.faults sink.new) }
    ensures later { K.faults sink.old ≤ K.faults sink.new }
{
    for one in alterations {
        add_altered(out, threads, rows, one)?;
        make_room(sink, out)?;
    }
    Ok(())
}

fn add_altered(
    out: &mut String,
    threads: &[ThreadRow],
    rows: &[PartitionRow],
    one: &Alteration,
) -> Result<(), NoMemory>
    ensures { OnOk result (string_bytes out.new ≡ string_bytes out.old ++ spec.alteration_event threads.now rows.now one.now) }
{
    out.push_str(",\n{\"ph\":\"i\",\"s\":\"g\",\"name\":\"")?;
    add_alteration(out, threads, rows, one)?;
    add_instant_end(out, one.moment)
}

/// The end of an event of all processors at this moment, behind its name.
fn add_instant_end(out: &mut String, moment: Nanos) -> Result<(), NoMemory>
    ensures { OnOk result (string_bytes out.new ≡ string_bytes out.old ++ spec.instant_end moment) }
{
    out.push_str("\"")?;
    add_place(out, of_processors(), moment)?;
    out.push_str(",\"args\":{}}")
}
