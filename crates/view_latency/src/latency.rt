//! The text of what the threads of a history wait for.
ghost use Rattle.std.specs.Prelude.{◌≡◌, ◌≤◌, ◌++◌, length, string_bytes, IfOk, OnOk};
ghost use Rattle.std.specs.List.{flat_map, enumerate_from};
ghost use Rattle.aps_model.specs.Legal.{IsLegal};
ghost use Rattle.laws_runs.specs.Moments.{moment};
ghost use Rattle.view_latency.specs.Followed.{AreFollowed};
ghost use Rattle.view_latency.specs.Text as spec;
ghost use Rattle.aps_model.specs.Limits.{most_entries};

use crate::billing::bills;
use crate::call::Calls;
use crate::following::{Followed, follow_all};
use crate::lines::{add_bills, add_calls, add_head, add_waits};
use aps_model::{Entry, History, Name, Nanos, NoMemory, Order, ThreadRow, Usage};
use std::alloc::Global;
use std::marker::Model;
use view_lives::Life;

/// Where the history ends (ns), and of each thread, by its number, on whose bills it ran, its life and its calls.
#[derive(Drop)]
struct Known {
    end: Nanos,
    bills: Vec<Usage>,
    lives: Vec<Life>,
    calls: Vec<Calls>,
}

impl Model for Known {
    ghost use Rattle.view_latency.specs.Text.{Known as Plain};

    ghost Value = { Plain };

    ghost view = { λ known. record { end = known.end; bills = known.bills.items; lives = known.lives.items; calls = known.calls.items } };
}

/// What the threads of a history wait for: a line for each thread, and behind it what it ran on whose bill, how long it waited to
/// run, its cycles, and its calls to each channel; all in ns. Threads come by their numbers. The history is legal in this order of
/// turns. `NoMemory` comes where memory runs out.
pub fn latency_text(alloc: Global, history: &History, order: Order) -> Result<String, NoMemory>
    requires legal { IsLegal history.now.scenario order history.now.entries }
    requires few { length history.now.entries ≤ most_entries }
    ensures { IfOk result (λ text. string_bytes text ≡ spec.latency_text history.now.scenario history.now.entries) }
{
    let followed = follow_all(alloc, history, order)?;
    latency_text_of(alloc, history, followed)
}

/// The same, where the lives and the calls of the threads are given, as `follow_run` gives them beside the run itself. `NoMemory`
/// comes where memory runs out.
pub fn latency_text_of(
    alloc: Global,
    history: &History,
    followed: Followed,
) -> Result<String, NoMemory>
    requires followed { AreFollowed history.now.scenario history.now.entries followed }
    requires few { length history.now.entries ≤ most_entries }
    ensures { IfOk result (λ text. string_bytes text ≡ spec.latency_text history.now.scenario history.now.entries) }
{
    let known = known_of(alloc, history, followed)?;
    let scenario = history.scenario();
    let channels = scenario.channels();
    let threads = scenario.threads();
    let mut out = String::new(alloc);
    out.push_str("aps latency 1\n")?;
    add_threads(alloc, &mut out, channels, threads, &known)?;
    Ok(out)
}

/// What is known of the threads of this history, with their lives and their calls.
fn known_of(alloc: Global, history: &History, followed: Followed) -> Result<Known, NoMemory>
    requires followed { AreFollowed history.now.scenario history.now.entries followed }
    requires few { length history.now.entries ≤ most_entries }
    ensures { IfOk result (spec.IsKnown history.now.scenario history.now.entries) }
{
    let entries = history.entries();
    Ok(Known {
        end: end_of(entries),
        bills: bills(alloc, entries)?,
        lives: followed.lives,
        calls: followed.calls,
    })
}

/// Where the last entry ends, in ns; 0 where there is none.
fn end_of(entries: &[Entry]) -> Nanos
    ensures { result ≡ moment entries.now }
{
    match entries.last() {
        Some(e) => e.to,
        None => 0,
    }
}

/// All threads, by their numbers.
fn add_threads(
    alloc: Global,
    out: &mut String,
    channels: &[Name],
    threads: &[ThreadRow],
    known: &Known,
) -> Result<(), NoMemory>
    requires { spec.HasPlaces (length threads.now) known.now }
    ensures { OnOk result (string_bytes out.new
        ≡ string_bytes out.old ++ flat_map (spec.thread_by_known channels.now known.now) (enumerate_from 0 threads.now)) }
{
    for (x, thread) in threads.iter().enumerate() {
        add_thread(alloc, out, channels, x, &thread.name, known)?;
    }
    Ok(())
}

/// The thread with this number and name.
fn add_thread(
    alloc: Global,
    out: &mut String,
    channels: &[Name],
    x: usize,
    name: &Name,
    known: &Known,
) -> Result<(), NoMemory>
    requires { spec.IsKnownThread x known.now }
    ensures { OnOk result (string_bytes out.new ≡ string_bytes out.old ++ spec.thread_by channels.now known.now x name.now) }
{
    add_head(out, x, name)?;
    add_bills(out, &known.bills[x])?;
    add_waits(alloc, out, known.end, &known.lives[x])?;
    add_calls(out, known.end, channels, &known.calls[x])?;
    Ok(())
}
