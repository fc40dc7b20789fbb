//! Lines for round moments, and their labels.
ghost use Rattle.std.specs.Prelude.{◌≡◌, ◌+◌, ◌-◌, ◌*◌, ◌<◌, ◌≤◌};
ghost use Rattle.view_svg.specs.Span.{last_shown, lowest_foot, page_width};
ghost use Rattle.view_svg.specs.Step.{greatest_step};

use crate::element::{Anchor, Place, add_text, close_text, open_text};
use crate::number::{add_decimal, digits_of, without_digits};
use crate::sharing::share;
use crate::span::Span;
use crate::step::step_of;
use aps_model::{Nanos, NoMemory};
use std::fmt::Write;

/// How far below the lines the labels stand, and their size.
const BELOW: u64 = 160;

const SIZE: u64 = 110;

/// Where an axis stands: from the left, how wide, from the top and to the bottom of its lines, and at most how many steps.
#[derive(Clone, Copy)]
pub struct Frame {
    pub x: u64,
    pub width: u64,
    pub top: u64,
    pub bottom: u64,
    pub most: u64,
    ghost inside: { 300 ≤ x },
    ghost narrow: { x + width ≤ page_width },
    ghost short: { bottom ≤ lowest_foot },
    ghost some: { 0 < most },
}

/// A line for each multiple of a round step of ms in this span, with its label.
pub fn add_axis(out: &mut String, frame: Frame, span: Span) -> Result<(), NoMemory> {
    let length = span.length();
    let step = step_of(length, frame.most);
    let places = 7u8.saturating_sub(digits_of(step));
    let mut moment = first_multiple(span.from, step);
    while moment <= span.to {
        let x = frame.x + share(moment - span.from, frame.width, length);
        add_line(out, x, frame.top, frame.bottom)?;
        add_label(out, x, frame.bottom, moment, places)?;
        moment += step;
    }
    add_unit(out, &frame)
}

/// The least multiple of the step that isn't below the moment.
fn first_multiple(moment: Nanos, step: Nanos) -> Nanos
    requires some { 0 < step }
    requires moment { moment ≤ last_shown }
    requires step { step ≤ greatest_step }
    ensures least { moment ≤ result }
    ensures near { result < moment + step }
{
    let over = moment % step;
    if over == 0 {
        moment
    } else {
        moment - over + step
    }
}

/// A line across all lanes.
fn add_line(out: &mut String, x: u64, top: u64, bottom: u64) -> Result<(), NoMemory> {
    write!(
        out,
        "<path d=\"M{x} {top}V{bottom}\" stroke=\"#bbbbbb\" stroke-width=\"6\"/>\n"
    )
}

/// The moment in ms below a line, with so many places.
fn add_label(
    out: &mut String,
    x: u64,
    bottom: u64,
    moment: Nanos,
    places: u8,
) -> Result<(), NoMemory>
    requires bottom { bottom ≤ lowest_foot }
    requires places { places ≤ 6 }
{
    let y = bottom + BELOW;
    open_text(out, Place { x, y }, SIZE, Anchor::Middle)?;
    add_decimal(out, without_digits(u128::from(moment), 6 - places), places)?;
    close_text(out)
}

fn add_unit(out: &mut String, frame: &Frame) -> Result<(), NoMemory> {
    let x = frame.x - 300;
    let y = frame.bottom + BELOW;
    add_text(out, Place { x, y }, SIZE, Anchor::End, "ms")
}
