//! The lines that tell what one thread waited for.
ghost use Rattle.std.specs.Prelude.{◌≡◌, ◌++◌, length, string_bytes, OnOk, slice_index};
ghost use Rattle.std.specs.List.{flat_map, enumerate_from};
ghost use Rattle.view_latency.specs.Text as spec;

use crate::answered::Answered;
use crate::call::{Asked, Calls};
use aps_model::limits::MOST_PARTITIONS;
use aps_model::{Name, Nanos, NoMemory, Usage};
use std::alloc::Global;
use std::fmt::Write;
use view_lives::{Begun, Cycles, Doing, Life, Longest, Segment, Tally, Waits, tally_cycles};
use view_texts::text_of;

/// A line for each partition on whose bill the thread ran.
pub fn add_bills(out: &mut String, bills: &Usage) -> Result<(), NoMemory>
    ensures { OnOk result (string_bytes out.new ≡ string_bytes out.old ++ spec.bill_lines (slice_index bills.now.used)) }
{
    for p in 0..MOST_PARTITIONS {
        add_bill(out, p, bills.used[p])?;
    }
    Ok(())
}

fn add_bill(out: &mut String, p: usize, ns: Nanos) -> Result<(), NoMemory>
    ensures { OnOk result (string_bytes out.new ≡ string_bytes out.old ++ spec.bill_line p ns) }
{
    if ns == 0 {
        return Ok(());
    }
    write!(out, "billed {p} {ns}\n")
}

/// How long the thread waited until it ran, and its cycles, where its life ends at this moment.
pub fn add_waits(alloc: Global, out: &mut String, end: Nanos, life: &Life) -> Result<(), NoMemory>
    ensures { OnOk result (string_bytes out.new ≡ string_bytes out.old ++ spec.wait_lines end life.now) }
{
    let waits = Waits::of(life);
    let cycles = Cycles::of(alloc, life)?;
    add_tallies(out, &waits, &tally_cycles(cycles.ended()))?;
    add_ready(out, &waits.last)?;
    add_cycle(out, end, &cycles.current())
}

fn add_tallies(out: &mut String, waits: &Waits, cycles: &Tally) -> Result<(), NoMemory>
    ensures { OnOk result (string_bytes out.new ≡ string_bytes out.old ++ spec.tally_lines waits.now cycles.now) }
{
    out.push_str("wake ")?;
    add_tally(out, &waits.wake)?;
    out.push_str("preempted ")?;
    add_tally(out, &waits.preempted)?;
    out.push_str("cycle ")?;
    add_tally(out, cycles)
}

/// What a tally tells, and the end of its line.
fn add_tally(out: &mut String, tally: &Tally) -> Result<(), NoMemory>
    ensures { OnOk result (string_bytes out.new ≡ string_bytes out.old ++ spec.tally_text tally.now) }
{
    let count = tally.count;
    let total = tally.total;
    write!(out, "{count} total {total}")?;
    add_longest(out, &tally.longest)
}

fn add_longest(out: &mut String, longest: &Option<Longest>) -> Result<(), NoMemory>
    ensures { OnOk result (string_bytes out.new ≡ string_bytes out.old ++ spec.longest_text longest.now) }
{
    match longest {
        None => out.push_str(" worst 0 at -\n"),
        Some(Longest { ns, begin }) => write!(out, " worst {ns} at {begin}\n"),
    }
}

/// The time that a thread has been ready which is ready at the end.
fn add_ready(out: &mut String, last: &Option<Segment>) -> Result<(), NoMemory>
    ensures { OnOk result (string_bytes out.new ≡ string_bytes out.old ++ spec.ready_line last.now) }
{
    match last {
        None => Ok(()),
        Some(segment) => match segment.doing {
            Doing::Ready => add_open_ready(out, segment),
            _ => Ok(()),
        },
    }
}

fn add_open_ready(out: &mut String, segment: &Segment) -> Result<(), NoMemory>
    ensures { OnOk result (string_bytes out.new ≡ string_bytes out.old ++ spec.open_ready segment.now) }
{
    let from = segment.from;
    let ns = segment.to.saturating_sub(from);
    write!(out, "open ready {ns} at {from}\n")
}

/// The time of the cycle that goes on at the end, if one does.
fn add_cycle(out: &mut String, end: Nanos, current: &Option<Begun>) -> Result<(), NoMemory>
    ensures { OnOk result (string_bytes out.new ≡ string_bytes out.old ++ spec.open_cycle_line end current.now) }
{
    match current {
        None => Ok(()),
        Some(begun) => {
            let begin = begun.begin;
            let ns = end.saturating_sub(begin);
            write!(out, "open cycle {ns} at {begin}\n")
        }
    }
}

/// The calls of the thread to each of these channels, where the history ends at this moment.
pub fn add_calls(
    out: &mut String,
    end: Nanos,
    channels: &[Name],
    calls: &Calls,
) -> Result<(), NoMemory>
    ensures { OnOk result (string_bytes out.new
        ≡ string_bytes out.old ++ flat_map (spec.channel_lines end calls.now) (enumerate_from 0 channels.now)) }
{
    for (c, name) in channels.iter().enumerate() {
        add_channel(out, end, c, name, calls)?;
    }
    Ok(())
}

fn add_channel(
    out: &mut String,
    end: Nanos,
    c: usize,
    name: &Name,
    calls: &Calls,
) -> Result<(), NoMemory>
    ensures { OnOk result (string_bytes out.new ≡ string_bytes out.old ++ spec.call_lines end calls.now c name.now) }
{
    let answered = Answered::of(calls.ended(), c);
    add_answered(out, c, name, &answered)?;
    add_current(out, end, c, name, &calls.current())
}

/// The lines of the calls that were answered, if some were.
fn add_answered(
    out: &mut String,
    c: usize,
    name: &Name,
    answered: &Answered,
) -> Result<(), NoMemory>
    ensures { OnOk result (string_bytes out.new ≡ string_bytes out.old ++ spec.answered_lines c name.now answered.now) }
{
    if answered.call.count == 0 {
        return Ok(());
    }
    add_answered_calls(out, c, name, &answered.call)?;
    add_queue(out, c, &answered.queue)?;
    add_served(out, c, answered.served)
}

fn add_answered_calls(
    out: &mut String,
    c: usize,
    name: &Name,
    calls: &Tally,
) -> Result<(), NoMemory>
    ensures { OnOk result (string_bytes out.new ≡ string_bytes out.old ++ spec.answered_line c name.now calls.now) }
{
    let name = text_of(name);
    write!(out, "call {c} {name} ")?;
    add_tally(out, calls)
}

fn add_queue(out: &mut String, c: usize, queue: &Tally) -> Result<(), NoMemory>
    ensures { OnOk result (string_bytes out.new ≡ string_bytes out.old ++ spec.queue_line c queue.now) }
{
    write!(out, "queue {c} ")?;
    add_tally(out, queue)
}

fn add_served(out: &mut String, c: usize, ns: u128) -> Result<(), NoMemory>
    ensures { OnOk result (string_bytes out.new ≡ string_bytes out.old ++ spec.served_line c ns) }
{
    write!(out, "served {c} {ns}\n")
}

/// The line of the call that goes on at the end, if one goes to this channel.
fn add_current(
    out: &mut String,
    end: Nanos,
    c: usize,
    name: &Name,
    current: &Option<Asked>,
) -> Result<(), NoMemory>
    ensures { OnOk result (string_bytes out.new ≡ string_bytes out.old ++ spec.current_line end c name.now current.now) }
{
    match current {
        None => Ok(()),
        Some(asked) => add_open_call(out, end, c, name, asked),
    }
}

fn add_open_call(
    out: &mut String,
    end: Nanos,
    c: usize,
    name: &Name,
    asked: &Asked,
) -> Result<(), NoMemory>
    ensures { OnOk result (string_bytes out.new ≡ string_bytes out.old ++ spec.open_call end c name.now asked.now) }
{
    if asked.channel.index() != c {
        return Ok(());
    }
    let name = text_of(name);
    let begin = asked.begin;
    let ns = end.saturating_sub(begin);
    write!(out, "open call {c} {name} {ns} at {begin}\n")
}

/// Which thread this is.
pub fn add_head(out: &mut String, x: usize, name: &Name) -> Result<(), NoMemory>
    ensures { OnOk result (string_bytes out.new ≡ string_bytes out.old ++ spec.thread_number_line x name.now) }
{
    let name = text_of(name);
    write!(out, "thread {x} {name}\n")
}
