//! Texts that several pictures have.
ghost use Rattle.std.specs.Prelude.{◌≡◌};

use aps_model::{Nanos, NoMemory};
use std::fmt::Write;
use view_svg::element::{close_text, open_text};
use view_svg::number::{add_decimal, add_ms};
use view_svg::{Anchor, Place, Span};

/// The beginning of the text on top of a picture.
pub fn open_title(out: &mut String) -> Result<(), NoMemory> {
    open_text(out, Place { x: 200, y: 280 }, 160, Anchor::Start)
}

/// The text on top of a picture of a span: its name, the span, the processors and the tick. It isn't closed.
pub fn open_span_title(
    out: &mut String,
    name: &str,
    span: &Span,
    cpus: u8,
    tick: Nanos,
) -> Result<(), NoMemory> {
    open_title(out)?;
    write!(out, "{name} ")?;
    add_ms(out, span.from)?;
    out.push_str(" to ")?;
    add_ms(out, span.to)?;
    out.push_str(" ms, ")?;
    add_run(out, cpus, tick)
}

/// How many processors there are and how long a tick is.
pub fn add_run(out: &mut String, cpus: u8, tick: Nanos) -> Result<(), NoMemory> {
    write!(out, "cpus {cpus}, tick ")?;
    add_ms(out, tick)?;
    out.push_str(" ms")
}

/// A text of a legend, as words beside a box or a mark.
pub fn add_words(out: &mut String, x: u64, y: u64, words: &str) -> Result<(), NoMemory> {
    open_text(out, Place { x, y }, 120, Anchor::Start)?;
    out.push_str(words)?;
    close_text(out)
}

/// A budget in percent, where all of the time is so many parts.
pub fn add_budget(out: &mut String, budget: u16, parts: u16) -> Result<(), NoMemory> {
    if parts == 1000 {
        add_decimal(out, u128::from(budget), 1)?;
    } else {
        write!(out, "{budget}")?;
    }
    out.push_str(" %")
}
