//! The text of an explanation.
ghost use Rattle.std.specs.Prelude.{◌≡◌, ◌<◌, ◌≤◌, ◌++◌, All, length, string_bytes, IfOk, OnOk};
ghost use Rattle.std.specs.List.{flat_map};
ghost use Rattle.aps_model.specs.Legal.{IsLegal};
ghost use Rattle.view_explain.specs.Chain.{threads_explained};
ghost use Rattle.view_explain.specs.Text as spec;
ghost use Rattle.aps_model.specs.Limits.{most_entries};

use crate::chain::explained;
use crate::lines::{
    add_again, add_because, add_head, add_part, add_state, add_values, since, since_last,
};
use crate::retracing::scene_at;
use crate::scene::{Scene, end_of};
use aps_model::{History, Nanos, NoMemory, Order, ThreadId};
use std::alloc::Global;
use std::fmt::Write;
use view_lives::{Life, lives};

/// Why a thread of the scenario runs at a moment (ns), or doesn't, and the same of the server that it waits for, and so on: what
/// each does and since when, its own values and those by which it counts, how its partition stands and when it is in budget again,
/// what stands before it, and the cause (docs/FORMATS.md). All is told as it stands after the entries that end at the moment or
/// earlier; where that are all, the history's end is told too. The history is legal in this order of turns. `NoMemory` comes where memory runs out.
pub fn explain_text(
    alloc: Global,
    history: &History,
    order: Order,
    thread: ThreadId,
    at: Nanos,
) -> Result<String, NoMemory>
    requires legal { IsLegal history.now.scenario order history.now.entries }
    requires few { length history.now.entries ≤ most_entries }
    requires thread { thread < length history.now.scenario.threads }
    ensures { IfOk result (λ text. string_bytes text ≡ spec.explain_text history.now.scenario history.now.entries thread at) }
{
    let lives = lives(alloc, history, order)?;
    let scene = scene_at(alloc, history, order, at)?;
    let end = end_of(history.entries());
    tell(alloc, &scene, &lives, thread, at, end)
}

/// The same, by a scene, the lives of all threads and the end of the history (ns).
fn tell(
    alloc: Global,
    scene: &Scene,
    lives: &Vec<Life>,
    thread: ThreadId,
    at: Nanos,
    end: Nanos,
) -> Result<String, NoMemory>
    requires lives { length lives.now.items ≡ length scene.now.scenario.threads }
    requires thread { thread < length scene.now.scenario.threads }
    ensures text { IfOk result (λ text. string_bytes text
        ≡ spec.title_text at end ++ flat_map (spec.thread_by_lives scene.now at lives.now.items) (threads_explained scene.now thread)) }
    ensures known { OnOk result (All (λ x. x < length scene.now.scenario.threads) (threads_explained scene.now thread)) }
{
    let told = explained(alloc, scene, thread)?;
    let mut out = String::new(alloc);
    add_title(&mut out, at, end)?;
    add_threads(alloc, &mut out, scene, lives, told.as_slice(), at)?;
    Ok(out)
}

fn add_title(out: &mut String, at: Nanos, end: Nanos) -> Result<(), NoMemory>
    ensures { OnOk result (string_bytes out.new ≡ string_bytes out.old ++ spec.title_text at end) }
{
    out.push_str("aps explain 1\n")?;
    add_at(out, at, end)
}

/// The moment that was asked for, and the end of the history where the moment isn't before it.
fn add_at(out: &mut String, at: Nanos, end: Nanos) -> Result<(), NoMemory>
    ensures { OnOk result (string_bytes out.new ≡ string_bytes out.old ++ spec.at_line at end) }
{
    if at < end {
        add_moment(out, at)
    } else {
        add_end(out, at, end)
    }
}

fn add_moment(out: &mut String, at: Nanos) -> Result<(), NoMemory>
    ensures { OnOk result (string_bytes out.new ≡ string_bytes out.old ++ spec.moment_line at) }
{
    write!(out, "at {at}\n")
}

fn add_end(out: &mut String, at: Nanos, end: Nanos) -> Result<(), NoMemory>
    ensures { OnOk result (string_bytes out.new ≡ string_bytes out.old ++ spec.at_and_end_line at end) }
{
    write!(out, "at {at} end {end}\n")
}

fn add_threads(
    alloc: Global,
    out: &mut String,
    scene: &Scene,
    lives: &Vec<Life>,
    told: &[ThreadId],
    at: Nanos,
) -> Result<(), NoMemory>
    requires known { All (λ x. x < length lives.now.items) told.now }
    ensures { OnOk result (string_bytes out.new
        ≡ string_bytes out.old ++ flat_map (spec.thread_by_lives scene.now at lives.now.items) told.now) }
{
    for x in told {
        add_thread(alloc, out, scene, &lives[x.index()], *x, at)?;
    }
    Ok(())
}

/// The lines of a thread with this life.
fn add_thread(
    alloc: Global,
    out: &mut String,
    scene: &Scene,
    life: &Life,
    x: ThreadId,
    at: Nanos,
) -> Result<(), NoMemory>
    ensures { OnOk result (string_bytes out.new ≡ string_bytes out.old ++ spec.explained_thread scene.now at life.now x) }
{
    let thread = scene.thread(x);
    let facts = scene.facts_of(x);
    let because = scene.because(alloc, x)?;
    let segments = life.segments();
    let last = since_last(scene, segments, &thread.state);
    let begin = since(segments, last, at);
    add_head(out, scene, x, &thread.state, begin)?;
    add_values(out, scene, "own", &thread.own)?;
    add_values(out, scene, "counts_as", &facts)?;
    add_part(out, scene, facts.partition)?;
    add_again(out, scene, facts.partition)?;
    add_state(alloc, out, scene, x, &thread.state)?;
    add_because(out, scene, &because)
}
