//! A history as a value change dump: every change of every signal, to the nanosecond.
ghost use Rattle.std.specs.Prelude.{◌≡◌, ◌≤◌, ◌++◌, List, [], IsErrOf, OnOk, length, string_bytes};
ghost use Rattle.std.specs.Io.KnownBytes.{Appends};
ghost use Rattle.view_replay.specs.Retraced.{order_of_run, scenario_of_run};
ghost use Rattle.view_samples.specs.declared.overspent.Overspent.{Overspent};
ghost use Rattle.aps_io.specs.Causes.{Rose};
ghost use Rattle.aps_model.specs.Legal.{IsLegal};
ghost use Rattle.view_value_changes.specs.Dump as spec;
ghost use Rattle.view_value_changes.specs.Retraced.{RetracedFollowsCore};
ghost use Rattle.view_value_changes.specs.Signals.{head_text};
ghost use Rattle.aps_model.specs.Limits.{most_entries, most_partitions};

use crate::dump::Dump;
use crate::signals::add_head;
use aps_io::Sink;
use aps_model::{History, Order, PartitionRow};
use std::alloc::Global;
use view_replay::rows_after;
use view_samples::Overspent;
use view_texts::{TraceFault, write_out};

/// Writes the value change dump of a history, which is legal in this order of turns, in pieces of some 65,536 bytes: what each
/// processor keeps, how each partition stands in the window, and the state of each thread, after all entries that end at a
/// moment; moments in ns (docs/FORMATS.md). The entries that made their partition bankrupt are given in order. `WriteFault`
/// comes only where the sink's count of faults rose in this call; `NoMemory` is want of memory, be it here or in the sink. After
/// either a prefix of the dump was written.
pub fn vcd<K: Sink>(
    alloc: Global,
    history: &History,
    order: Order,
    overspent: &[Overspent],
    sink: &mut K,
) -> Result<(), TraceFault>
    requires legal { IsLegal history.now.scenario order history.now.entries }
    requires few { length history.now.entries ≤ most_entries }
    ensures whole { OnOk result (Appends (K.written sink.old) (K.written sink.new)
        (spec.dump_text history.now.scenario history.now.entries overspent.now)) }
    ensures fault { IsErrOf result TraceFault.WriteFault → Rose (K.faults sink.old) (K.faults sink.new) }
    ensures later { K.faults sink.old ≤ K.faults sink.new }
{
    let rows = rows_after(alloc, history, order)?;
    let mut dump = Dump::begin(alloc, history, order)?;
    let mut out = String::new(alloc);
    write_dump(
        sink,
        &mut out,
        &mut dump,
        history,
        rows.as_slice(),
        overspent,
    )
}

/// Writes the dump of the history, by a dump that has told nothing and the rows that stand last.
fn write_dump<K: Sink>(
    sink: &mut K,
    out: &mut String,
    dump: &mut Dump,
    history: &History,
    rows: &[PartitionRow],
    overspent: &[Overspent],
) -> Result<(), TraceFault>
    requires at { RetracedFollowsCore dump.old.at }
    requires begins { dump.old.at.core.entries ≡ [] }
    requires legal { IsLegal (scenario_of_run dump.old.at.core) (order_of_run dump.old.at.core) history.now.entries }
    requires few { length history.now.entries ≤ dump.old.at.core.setup.limit }
    requires few_rows { length rows.now ≤ most_partitions }
    requires empty { string_bytes out.old ≡ [] }
    requires starts { (o : List Overspent) → spec.telling_of o dump.old ≡ spec.start_telling o }
    ensures whole { OnOk result (Appends (K.written sink.old) (K.written sink.new)
        (head_text history.now.scenario.shape.cpus rows.now history.now.scenario.threads
        ++ spec.body_text dump.old.at.core.setup history.now.scenario.threads rows.now overspent.now history.now.entries)) }
    ensures fault { IsErrOf result TraceFault.WriteFault → Rose (K.faults sink.old) (K.faults sink.new) }
    ensures later { K.faults sink.old ≤ K.faults sink.new }
{
    let threads = history.scenario().threads();
    let cpus = usize::from(history.scenario().shape().cpus);
    add_head(out, cpus, rows, threads)?;
    dump.go_through(sink, out, threads, rows, overspent, history.entries())?;
    dump.tell(out, threads, rows, true)?;
    write_out(sink, out)
}
