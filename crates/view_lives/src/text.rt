//! The text of the cycles of a history.
ghost use Rattle.std.specs.Prelude.{◌≡◌, ◌≤◌, ◌++◌, length, string_bytes, IfOk, OnOk};
ghost use Rattle.std.specs.List.{flat_map, enumerate_from};
ghost use Rattle.aps_model.specs.Legal.{IsLegal};
ghost use Rattle.view_lives.specs.Text as spec;
ghost use Rattle.aps_model.specs.Limits.{most_entries};

use crate::cycle::{Cycle, Cycles, Times};
use crate::life::Life;
use crate::retracing::lives;
use aps_model::{History, Name, NoMemory, Order, ThreadRow};
use std::alloc::Global;
use std::fmt::Write;
use view_texts::text_of;

/// The cycles that have ended, of each thread, as values with commas between them: a line of titles, and then a line for
/// each cycle, with the thread's name, the cycle's begin and end, and how long the thread ran, was ready, waited for a
/// server or its reply, and waited for a message; all in ns. Threads come by their numbers, and cycles in order. The history is
/// legal in this order of turns. `NoMemory` comes where memory runs out.
pub fn cycles_text(alloc: Global, history: &History, order: Order) -> Result<String, NoMemory>
    requires legal { IsLegal history.now.scenario order history.now.entries }
    requires few { length history.now.entries ≤ most_entries }
    ensures { IfOk result (λ text. string_bytes text ≡ spec.cycles_text history.now.scenario history.now.entries) }
{
    let lives = lives(alloc, history, order)?;
    let mut out = String::new(alloc);
    out.push_str("thread,begin_ns,end_ns,running_ns,ready_ns,calling_ns,receiving_ns\n")?;
    add_threads(alloc, &mut out, history.scenario().threads(), &lives)?;
    Ok(out)
}

fn add_threads(
    alloc: Global,
    out: &mut String,
    threads: &[ThreadRow],
    lives: &Vec<Life>,
) -> Result<(), NoMemory>
    requires { length lives.now.items ≡ length threads.now }
    ensures { OnOk result (string_bytes out.new
        ≡ string_bytes out.old ++ flat_map (spec.thread_cycle_lines lives.now.items) (enumerate_from 0 threads.now)) }
{
    for (x, thread) in threads.iter().enumerate() {
        add_cycles(alloc, out, &thread.name, &lives[x])?;
    }
    Ok(())
}

fn add_cycles(alloc: Global, out: &mut String, name: &Name, life: &Life) -> Result<(), NoMemory>
    ensures { OnOk result (string_bytes out.new ≡ string_bytes out.old ++ spec.cycle_lines name.now life.now) }
{
    let cycles = Cycles::of(alloc, life)?;
    for cycle in cycles.ended() {
        add_cycle(out, name, cycle)?;
    }
    Ok(())
}

fn add_cycle(out: &mut String, name: &Name, cycle: &Cycle) -> Result<(), NoMemory>
    ensures { OnOk result (string_bytes out.new ≡ string_bytes out.old ++ spec.cycle_line name.now cycle.now) }
{
    let name = text_of(name);
    let Cycle { begin, end, times } = *cycle;
    let Times {
        running,
        ready,
        calling,
        receiving,
    } = times;
    write!(
        out,
        "{name},{begin},{end},{running},{ready},{calling},{receiving}\n"
    )
}
