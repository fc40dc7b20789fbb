//! Which ticks a picture shows, and what stands in them.
ghost use Rattle.std.specs.Prelude.{◌≡◌, ◌+◌, ◌*◌, ◌<◌, ◌≤◌, length, IfOk};
ghost use Rattle.aps_model.specs.Legal.{IsLegal};
ghost use Rattle.aps_model.specs.Shape.{IsShape};
ghost use Rattle.view_pictures.specs.Scene.{IsScene, asked_end, end_of_entries, last_begin, shown_end};
ghost use Rattle.aps_model.specs.Limits.{longest_tick, most_entries};

use crate::retracing::standing_at;
use crate::scene::{Scene, Stretch};
use aps_model::{Entry, History, Nanos, NoMemory, Order, Usage};
use std::alloc::Global;
use view_replay::rows_after;
use view_samples::table::Ticks;
use view_svg::Span;

/// The most ticks that a picture goes to.
const TICKS: u64 = 4_294_967_296;

impl Scene {
    /// What is shown of a history that is legal in this order of turns. `NoMemory` comes where memory runs out.
    pub fn of(
        alloc: Global,
        history: &History,
        order: Order,
        ticks: Ticks,
    ) -> Result<Scene, NoMemory>
        requires legal { IsLegal history.now.scenario order history.now.entries }
        requires few { length history.now.entries ≤ most_entries }
        ensures { IfOk result (IsScene history.now ticks) }
    {
        let shape = *history.scenario().shape();
        let entries = history.entries();
        let end = end_of(entries);
        let stretch = stretch_of(ticks, end, shape.tick);
        let span = span_of(stretch, shape.tick);
        let last = last_begin(stretch, end, shape.tick);
        let rows = rows_after(alloc, history, order)?;
        let standing = standing_at(alloc, history, order, last)?;
        let usage = Usage::of(entries, shape.tick, stretch.from, stretch.to);
        Ok(Scene {
            stretch,
            span,
            cpus: shape.cpus,
            tick: shape.tick,
            parts: shape.parts,
            rows,
            standing,
            usage,
        })
    }
}

/// Where the last entry ends, in ns; 0 where there is none.
fn end_of(entries: &[Entry]) -> Nanos
    ensures { result ≡ end_of_entries entries.now }
{
    match entries.last() {
        Some(e) => e.to,
        None => 0,
    }
}

/// The ticks that are shown, of a history that ends at this moment.
fn stretch_of(ticks: Ticks, end: Nanos, tick: Nanos) -> Stretch
    requires { 0 < tick }
    ensures from { result.from ≡ ticks.from }
    ensures to { result.to ≡ shown_end ticks end tick }
{
    let from = u64::from(ticks.from);
    let to = asked_end(ticks.to, end, tick);
    Stretch {
        from,
        to: to.min(TICKS).max(from + 1),
    }
}

/// Before which tick the picture ends: where no end is asked for, it goes to the tick in which the history ends.
fn asked_end(asked: Option<u32>, end: Nanos, tick: Nanos) -> u64
    requires { 0 < tick }
    ensures { result ≡ asked_end asked end tick }
{
    match asked {
        Some(to) => u64::from(to),
        None => end.div_ceil(tick),
    }
}

/// The time of these ticks.
fn span_of(stretch: Stretch, tick: Nanos) -> Span
    requires some { 0 < tick }
    requires short { tick ≤ longest_tick }
    ensures from { result.from ≡ stretch.from * tick }
    ensures to { result.to ≡ stretch.to * tick }
{
    Span {
        from: stretch.from * tick,
        to: stretch.to * tick,
    }
}

/// Where the last tick begins that is shown and that the history reached, which ends at this moment.
fn last_begin(stretch: Stretch, end: Nanos, tick: Nanos) -> Nanos
    requires some { 0 < tick }
    requires short { tick ≤ longest_tick }
    ensures { result ≡ last_begin stretch.to end tick }
{
    (stretch.to - 1).min(end / tick) * tick
}
