//! A history as trace events, in the form that Perfetto and chrome://tracing read.
ghost use Rattle.std.specs.Prelude.{◌≡◌, ◌≤◌, ◌++◌, length, string_bytes, IfOk, IsErrOf, OnOk};
ghost use Rattle.std.specs.Io.KnownBytes.{Appends};
ghost use Rattle.std.specs.List.{flat_map};
ghost use Rattle.aps_io.specs.Causes.{Rose};
ghost use Rattle.aps_model.specs.After.{state_after};
ghost use Rattle.aps_model.specs.Legal.{IsLegal};
ghost use Rattle.view_marks.specs.Alteration.{alterations_of};
ghost use Rattle.view_trace_events.specs.Instants.{alteration_event, overspent_event};
ghost use Rattle.view_texts.specs.Piece.{IsTold};
ghost use Rattle.view_trace_events.specs.Trace as spec;
ghost use Rattle.aps_model.specs.Limits.{most_entries, most_partitions};

use crate::arrows::write_arrows;
use crate::counters::write_counters;
use crate::instants::{write_alterations, write_overspent};
use crate::names;
use crate::slices::{write_lanes, write_lives};
use aps_io::Sink;
use aps_model::{History, NoMemory, Order, PartitionRow, Scenario};
use std::alloc::Global;
use view_lives::lives;
use view_marks::{Alteration, Drawn, drawn_of};
use view_samples::Overspent;
use view_texts::{TraceFault, write_out};

/// Writes the trace events of a history, which is legal in this order of turns, in pieces of some 65,536 bytes: names of tracks,
/// what processors and threads did, messages and replies, usages by tick, overspent budgets and changes (docs/FORMATS.md). The
/// entries that made their partition bankrupt are given in order. `WriteFault` comes only where the sink's count of faults rose in
/// this call; `NoMemory` is want of memory, be it here or in the sink. After either a part of the trace was written.
pub fn trace<K: Sink>(
    alloc: Global,
    history: &History,
    order: Order,
    overspent: &[Overspent],
    sink: &mut K,
) -> Result<(), TraceFault>
    requires legal { IsLegal history.now.scenario order history.now.entries }
    requires few { length history.now.entries ≤ most_entries }
    ensures whole { OnOk result (Appends (K.written sink.old) (K.written sink.new)
        (spec.trace_text history.now.scenario history.now.entries overspent.now)) }
    ensures fault { IsErrOf result TraceFault.WriteFault → Rose (K.faults sink.old) (K.faults sink.new) }
    ensures later { K.faults sink.old ≤ K.faults sink.new }
{
    let mut out = String::new(alloc);
    write_events(alloc, sink, &mut out, history, order, overspent)?;
    out.push_str("\n]}\n")?;
    write_out(sink, &mut out)
}

/// Writes all events.
fn write_events<K: Sink>(
    alloc: Global,
    sink: &mut K,
    out: &mut String,
    history: &History,
    order: Order,
    overspent: &[Overspent],
) -> Result<(), TraceFault>
    requires legal { IsLegal history.now.scenario order history.now.entries }
    requires few { length history.now.entries ≤ most_entries }
    ensures told { OnOk result (IsTold (K.written sink.old) (K.written sink.new) (string_bytes out.old) (string_bytes out.new)
        (spec.events_text history.now.scenario history.now.entries overspent.now)) }
    ensures fault { IsErrOf result TraceFault.WriteFault → Rose (K.faults sink.old) (K.faults sink.new) }
    ensures later { K.faults sink.old ≤ K.faults sink.new }
{
    let (alterations, rows) = write_processors(alloc, sink, out, history, order)?;
    write_lasting(alloc, sink, out, history, order, &rows)?;
    write_instants(
        sink,
        out,
        history.scenario(),
        &rows,
        overspent,
        &alterations,
    )
}

/// Writes the names and what the processors did. The answer is what was altered, and the partition rows that stand last.
fn write_processors<K: Sink>(
    alloc: Global,
    sink: &mut K,
    out: &mut String,
    history: &History,
    order: Order,
) -> Result<(Vec<Alteration>, Vec<PartitionRow>), TraceFault>
    requires legal { IsLegal history.now.scenario order history.now.entries }
    requires few { length history.now.entries ≤ most_entries }
    ensures told { OnOk result (IsTold (K.written sink.old) (K.written sink.new) (string_bytes out.old) (string_bytes out.new)
        (spec.processors_part history.now.scenario history.now.entries)) }
    ensures alterations { IfOk result (λ r. r.0.items ≡ alterations_of history.now.scenario history.now.entries) }
    ensures rows { IfOk result (λ r. r.1.items ≡ (state_after history.now.scenario history.now.entries).rows) }
    ensures few_rows { IfOk result (λ r. length r.1.items ≤ most_partitions) }
    ensures fault { IsErrOf result TraceFault.WriteFault → Rose (K.faults sink.old) (K.faults sink.new) }
    ensures later { K.faults sink.old ≤ K.faults sink.new }
{
    let drawn = drawn_of(alloc, history, order)?;
    write_drawn(sink, out, history.scenario(), &drawn)?;
    Ok(drawn.without_lanes())
}

/// Writes the names and the bars.
fn write_drawn<K: Sink>(
    sink: &mut K,
    out: &mut String,
    scenario: &Scenario,
    drawn: &Drawn,
) -> Result<(), TraceFault>
    requires rows { length drawn.now.rows ≤ most_partitions }
    requires lanes { length drawn.now.lanes ≡ scenario.now.shape.cpus }
    ensures told { OnOk result (IsTold (K.written sink.old) (K.written sink.new) (string_bytes out.old) (string_bytes out.new)
        (spec.drawn_part scenario.now drawn.now.rows drawn.now.lanes)) }
    ensures fault { IsErrOf result TraceFault.WriteFault → Rose (K.faults sink.old) (K.faults sink.new) }
    ensures later { K.faults sink.old ≤ K.faults sink.new }
{
    let threads = scenario.threads();
    names::add_processors(out, scenario.shape().cpus)?;
    names::write_partitions(sink, out, drawn.rows())?;
    names::write_threads(sink, out, threads)?;
    write_lanes(sink, out, threads, drawn.rows(), drawn.lanes())
}

/// Writes what the threads did, messages and replies, and usages.
fn write_lasting<K: Sink>(
    alloc: Global,
    sink: &mut K,
    out: &mut String,
    history: &History,
    order: Order,
    rows: &[PartitionRow],
) -> Result<(), TraceFault>
    requires legal { IsLegal history.now.scenario order history.now.entries }
    requires few { length history.now.entries ≤ most_entries }
    requires few_rows { length rows.now ≤ most_partitions }
    ensures told { OnOk result (IsTold (K.written sink.old) (K.written sink.new) (string_bytes out.old) (string_bytes out.new)
        (spec.lasting_part history.now.scenario history.now.entries rows.now)) }
    ensures fault { IsErrOf result TraceFault.WriteFault → Rose (K.faults sink.old) (K.faults sink.new) }
    ensures later { K.faults sink.old ≤ K.faults sink.new }
{
    write_threads(alloc, sink, out, history, order, rows)?;
    write_arrows(sink, out, history.scenario().threads(), history.entries())?;
    write_counters(alloc, sink, out, history, order, rows.len())
}

/// Writes what the threads did.
fn write_threads<K: Sink>(
    alloc: Global,
    sink: &mut K,
    out: &mut String,
    history: &History,
    order: Order,
    rows: &[PartitionRow],
) -> Result<(), TraceFault>
    requires legal { IsLegal history.now.scenario order history.now.entries }
    requires few { length history.now.entries ≤ most_entries }
    ensures told { OnOk result (IsTold (K.written sink.old) (K.written sink.new) (string_bytes out.old) (string_bytes out.new)
        (spec.lives_part history.now.scenario history.now.entries rows.now)) }
    ensures fault { IsErrOf result TraceFault.WriteFault → Rose (K.faults sink.old) (K.faults sink.new) }
    ensures later { K.faults sink.old ≤ K.faults sink.new }
{
    let lives = lives(alloc, history, order)?;
    write_lives(sink, out, history.scenario(), rows, &lives)
}

/// Writes the overspent budgets, and then the changes.
fn write_instants<K: Sink>(
    sink: &mut K,
    out: &mut String,
    scenario: &Scenario,
    rows: &[PartitionRow],
    overspent: &[Overspent],
    alterations: &[Alteration],
) -> Result<(), TraceFault>
    ensures told { OnOk result (IsTold (K.written sink.old) (K.written sink.new) (string_bytes out.old) (string_bytes out.new)
        (flat_map overspent_event overspent.now ++ flat_map (alteration_event scenario.now.threads rows.now) alterations.now)) }
    ensures fault { IsErrOf result TraceFault.WriteFault → Rose (K.faults sink.old) (K.faults sink.new) }
    ensures later { K.faults sink.old ≤ K.faults sink.new }
{
    write_overspent(sink, out, overspent)?;
    write_alterations(sink, out, scenario.threads(), rows, alterations)
}
