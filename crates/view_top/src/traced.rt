//! A history that is told as a trace, for a viewer.
ghost use Rattle.std.specs.Prelude.{◌≡◌, ◌≤◌, IsErrOf, OnOk};
ghost use Rattle.aps_io.specs.Causes.{Rose};
ghost use Rattle.aps_calls.specs.Printing.{output_of};
ghost use Rattle.view_top.specs.Printing.{SaysTold, SaysAll};
ghost use Rattle.view_top.specs.Traced.{trace_told};
ghost use Rattle.aps_model.specs.Limits.{most_entries};

use aps_calls::status::Status;
use aps_core::Core;
use aps_io::{Sink, write_all};
use std::alloc::Global;
use std::marker::Model;
use view_shares::all_overspent;
use view_texts::TraceFault;
use view_trace_events::trace;
use view_value_changes::{gtkw, vcd};
use view_words::Trace;

/// A recorded history of up to 4,000,000 entries that is to be told as a trace, and the status of its run.
#[derive(Drop)]
pub struct Traced {
    status: Status,
    trace: Trace,
    core: Core,
}

impl Model for Traced {
    ghost use Rattle.std.specs.Prelude.{◌≤◌};
    ghost use Rattle.aps_model.specs.Limits.{most_entries};
    ghost use Rattle.view_top.specs.Traced.{Traced as Plain};

    ghost Value = { Plain };

    ghost view = { λ traced. record { status = traced.status; trace = traced.trace; run = traced.core } };

    ghost invariant = { λ traced. traced.core.setup.limit ≤ most_entries };
}

impl Traced {
    /// What the core has recorded, told as this trace under this status.
    pub fn of(status: Status, trace: Trace, core: Core) -> Traced
        requires few { core.setup.limit ≤ most_entries }
        ensures { result ≡ record { status = status; trace = trace; run = core } }
    {
        Traced {
            status,
            trace,
            core,
        }
    }

    /// Writes the trace, and gives the status for which it was written. A fault of the sink takes the place of `Done` alone,
    /// and want of memory that of any status; a part was written then.
    pub fn say<K: Sink>(&self, alloc: Global, sink: &mut K) -> Status
        ensures { SaysTold (output_of (K.written sink.old) (K.written sink.new) (K.faults sink.old) (K.faults sink.new)
            (K.shortages sink.old) (K.shortages sink.new))
            (trace_told self.now.trace self.now.run.setup.scenario self.now.run.entries) self.now.status result }
    {
        match self.write(alloc, sink) {
            Ok(()) => self.status,
            Err(TraceFault::WriteFault) => self.status.or_write_fault(),
            Err(TraceFault::NoMemory) => Status::NoMemory,
        }
    }

    /// Writes the trace, piece by piece.
    fn write<K: Sink>(&self, alloc: Global, sink: &mut K) -> Result<(), TraceFault>
        ensures whole { OnOk result (SaysAll (output_of (K.written sink.old) (K.written sink.new) (K.faults sink.old) (K.faults sink.new)
            (K.shortages sink.old) (K.shortages sink.new))
            (trace_told self.now.trace self.now.run.setup.scenario self.now.run.entries)) }
        ensures fault { IsErrOf result TraceFault.WriteFault → Rose (K.faults sink.old) (K.faults sink.new) }
        ensures later { K.faults sink.old ≤ K.faults sink.new }
    {
        let history = self.core.history();
        let order = self.core.order();
        // the check wants to see here that the entries are no more than there is room for
        let _entries = history.entries();
        match self.trace {
            Trace::Vcd => {
                let overspent = all_overspent(alloc, history, order)?;
                vcd(alloc, history, order, &overspent, sink)
            }
            Trace::Gtkw => {
                let text = gtkw(alloc, history, order)?;
                write_all(sink, text.as_bytes())?;
                Ok(())
            }
            Trace::Events => {
                let overspent = all_overspent(alloc, history, order)?;
                trace(alloc, history, order, &overspent, sink)
            }
        }
    }
}
