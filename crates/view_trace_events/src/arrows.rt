//! The events of messages and replies: each is an arrow from one thread to another.
ghost use Rattle.std.specs.Prelude.{◌≡◌, ◌≤◌, ◌++◌, length, string_bytes, IfOk, IsErrOf, OnOk};
ghost use Rattle.aps_io.specs.Causes.{Rose};
ghost use Rattle.view_trace_events.specs.Arrows as spec;
ghost use Rattle.view_texts.specs.Piece.{IsTold};
ghost use Rattle.aps_model.specs.Limits.{most_entries};

use crate::place::add_place;
use crate::tracks::of_thread;
use aps_io::Sink;
use aps_model::{Entry, Nanos, NoMemory, ThreadId, ThreadRow};
use std::fmt::Write;
use view_marks::{Arrow, Carried, arrow_of};
use view_texts::{TraceFault, make_room};

/// Two events for each arrow of these entries, which are numbered from 0.
pub fn write_arrows<K: Sink>(
    sink: &mut K,
    out: &mut String,
    threads: &[ThreadRow],
    entries: &[Entry],
) -> Result<(), TraceFault>
    requires { length entries.now ≤ most_entries }
    ensures told { OnOk result (IsTold (K.written sink.old) (K.written sink.new) (string_bytes out.old) (string_bytes out.new)
        (spec.arrows_text threads.now entries.now)) }
    ensures fault { IsErrOf result TraceFault.WriteFault → Rose (K.faults sink.old) (K.faults sink.new) }
    ensures later { K.faults sink.old ≤ K.faults sink.new }
{
    let mut count = 0;
    for e in entries {
        count = add_entry(out, threads, count, e)?;
        make_room(sink, out)?;
    }
    Ok(())
}

/// The events of the entry's arrow, if it has one, which gets this number. The answer is the number of the next one.
fn add_entry(
    out: &mut String,
    threads: &[ThreadRow],
    number: u64,
    e: &Entry,
) -> Result<u64, NoMemory>
    requires { number ≤ most_entries }
    ensures text { OnOk result (string_bytes out.new ≡ string_bytes out.old ++ spec.entry_events threads.now number e.now) }
    ensures next { IfOk result (λ next. next ≡ spec.arrow_number_after number e.now) }
{
    match arrow_of(e) {
        Some(arrow) => {
            add_arrow(out, threads, &arrow, number, e.to)?;
            Ok(number + 1)
        }
        None => Ok(number),
    }
}

/// The begin of the arrow, a nanosecond before it ends, and its end. An operation takes a nanosecond at least, so both lie where
/// their threads do something.
fn add_arrow(
    out: &mut String,
    threads: &[ThreadRow],
    arrow: &Arrow,
    number: u64,
    moment: Nanos,
) -> Result<(), NoMemory>
    ensures { OnOk result (string_bytes out.new ≡ string_bytes out.old ++ spec.arrow_events threads.now number arrow.now moment) }
{
    let Arrow {
        carried,
        source,
        target,
    } = *arrow;
    add_end(
        out,
        threads,
        "s",
        carried,
        number,
        source,
        moment.saturating_sub(1),
    )?;
    out.push_str("}")?;
    add_end(out, threads, "f", carried, number, target, moment)?;
    out.push_str(",\"bp\":\"e\"}")
}

/// One end of an arrow.
fn add_end(
    out: &mut String,
    threads: &[ThreadRow],
    phase: &str,
    carried: Carried,
    number: u64,
    x: ThreadId,
    moment: Nanos,
) -> Result<(), NoMemory>
    ensures { OnOk result (string_bytes out.new ≡ string_bytes out.old ++ spec.end_text threads.now phase.now carried number x moment) }
{
    let name = carried_word(carried);
    write!(
        out,
        ",\n{{\"ph\":\"{phase}\",\"name\":\"{name}\",\"cat\":\"message\",\"id\":{number}"
    )?;
    add_place(out, of_thread(threads, x), moment)
}

fn carried_word(carried: Carried) -> &'static str
    ensures { result.now ≡ spec.carried_word carried }
{
    match carried {
        Carried::Message => "message",
        Carried::Reply => "reply",
    }
}
