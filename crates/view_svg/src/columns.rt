//! What many bars are drawn as: columns of equal time, in each of which the shares of the time are stacked.
ghost use Rattle.std.specs.Prelude.{◌≡◌, ◌<◌, ◌≤◌, ◌*◌, length, IfOk};
ghost use Rattle.view_svg.specs.Span.{column_count, lowest_foot, stacked_count};

use crate::element::{close_filled, close_path, open_path};
use crate::fill::Fill;
use crate::sharing::share;
use crate::span::{LEFT, Span};
use aps_model::{Nanos, NoMemory};
use std::alloc::Global;
use std::fmt::Write;

/// How many columns there are, and how wide each is.
pub const COLUMNS: usize = 600;

const WIDTH: u64 = 20;

/// The parts that are stacked: of each of 32 partitions the time that isn't critical and the time that is, and ready time.
const PARTS: usize = 65;

/// What time is drawn as.
#[derive(Clone, Copy)]
pub enum Part {
    Billed { partition: usize, critical: bool },
    Ready,
}

/// The time (ns) of each part in each column, and how much of it is drawn already.
#[derive(Drop)]
pub struct Columns {
    span: Span,
    times: Vec<[Nanos; PARTS]>,
    drawn: Vec<Nanos>,
    ghost columns: { length times.items ≡ column_count },
    ghost places: { length drawn.items ≡ column_count },
}

/// Where columns stand: from the top, and how high.
#[derive(Clone, Copy)]
pub struct Strip {
    pub top: u64,
    pub height: u64,
    ghost low: { top ≤ lowest_foot },
    ghost flat: { height ≤ 1000000 },
}

/// Equal boxes in columns side by side, which are drawn as one.
#[derive(Clone, Copy)]
struct Boxed {
    x: u64,
    top: u64,
    width: u64,
    height: u64,
}

impl Columns {
    /// Columns of this span without any time. `NoMemory` comes where memory runs out.
    pub fn new(alloc: Global, span: Span) -> Result<Columns, NoMemory> {
        Ok(Columns {
            span,
            times: no_times(alloc)?,
            drawn: none_drawn(alloc)?,
        })
    }

    /// Where the columns have no time again.
    pub fn clear(&mut self) {
        for i in 0..COLUMNS {
            self.times[i] = [0; PARTS];
            self.drawn[i] = 0;
        }
    }

    /// Adds time from one moment to another.
    pub fn add(&mut self, from: Nanos, to: Nanos, part: Part) {
        let place = place_of(part);
        let first = self.column_of(from);
        for i in first..COLUMNS {
            let (begin, end) = self.edges(i);
            if to <= begin {
                return;
            }
            let time = to.min(end).saturating_sub(from.max(begin));
            self.times[i][place] = self.times[i][place].saturating_add(time);
        }
    }

    /// A column that begins at the moment or before it, and no later one does but where it begins there too.
    fn column_of(&self, moment: Nanos) -> usize
        ensures { result ≤ column_count }
    {
        let shown = moment.max(self.span.from).min(self.span.to);
        share(shown - self.span.from, COLUMNS as u64, self.span.length()) as usize
    }

    /// Where a column begins, and where it ends.
    fn edges(&self, column: usize) -> (Nanos, Nanos)
        requires { column < column_count }
    {
        (self.edge(column as u64), self.edge(column as u64 + 1))
    }

    fn edge(&self, column: u64) -> Nanos
        requires { column ≤ column_count }
        ensures { result ≤ 200000000000000000 }
    {
        self.span.from + share(column, self.span.length(), COLUMNS as u64)
    }

    /// The stacks, in this strip.
    pub fn draw(&mut self, out: &mut String, strip: Strip) -> Result<(), NoMemory> {
        for place in 0..PARTS {
            self.draw_part(out, strip, place)?;
            self.pass(place);
        }
        Ok(())
    }

    /// The boxes of the part at this place, and over critical time the hatching.
    fn draw_part(&self, out: &mut String, strip: Strip, place: usize) -> Result<(), NoMemory>
        requires { place < stacked_count }
    {
        if !self.is_shown(strip, place) {
            return Ok(());
        }
        open_path(out)?;
        self.add_boxes(out, strip, place)?;
        close_filled(out, fill_of(place))?;
        if !is_critical(place) {
            return Ok(());
        }
        open_path(out)?;
        self.add_boxes(out, strip, place)?;
        close_path(out, "fill=\"url(#c)\" opacity=\"0.5\"")
    }

    /// Whether the part has a box in some column.
    fn is_shown(&self, strip: Strip, place: usize) -> bool
        requires { place < stacked_count }
    {
        for i in 0..COLUMNS {
            if self.box_of(strip, place, i).is_some() {
                return true;
            }
        }
        false
    }

    /// The boxes of the part, from left to right.
    fn add_boxes(&self, out: &mut String, strip: Strip, place: usize) -> Result<(), NoMemory>
        requires { place < stacked_count }
    {
        let mut last: Option<Boxed> = None;
        for i in 0..COLUMNS {
            if let Some(next) = self.box_of(strip, place, i) {
                last = Some(joined(out, last, next)?);
            }
        }
        match last {
            Some(boxed) => add_box(out, &boxed),
            None => Ok(()),
        }
    }

    /// The box of the part in this column, if it has one.
    fn box_of(&self, strip: Strip, place: usize, column: usize) -> Option<Boxed>
        requires place { place < stacked_count }
        requires column { column < column_count }
    {
        let (begin, end) = self.edges(column);
        let length = end.saturating_sub(begin);
        let before = self.drawn[column];
        let low = height_of(before, length, strip.height);
        let high = height_of(
            before.saturating_add(self.times[column][place]),
            length,
            strip.height,
        );
        if high <= low {
            return None;
        }
        Some(Boxed {
            x: LEFT + column as u64 * WIDTH,
            top: strip.top + strip.height - high,
            width: WIDTH,
            height: high - low,
        })
    }

    /// The part at this place is drawn.
    fn pass(&mut self, place: usize)
        requires { place < stacked_count }
    {
        for i in 0..COLUMNS {
            self.drawn[i] = self.drawn[i].saturating_add(self.times[i][place]);
        }
    }
}

fn no_times(alloc: Global) -> Result<Vec<[Nanos; PARTS]>, NoMemory>
    ensures { IfOk result (λ times. length times.items ≡ column_count) }
{
    let mut times = Vec::with_capacity(alloc, COLUMNS)?;
    for _ in 0..COLUMNS {
        times.push([0; PARTS])?;
    }
    Ok(times)
}

fn none_drawn(alloc: Global) -> Result<Vec<Nanos>, NoMemory>
    ensures { IfOk result (λ drawn. length drawn.items ≡ column_count) }
{
    let mut drawn = Vec::with_capacity(alloc, COLUMNS)?;
    for _ in 0..COLUMNS {
        drawn.push(0)?;
    }
    Ok(drawn)
}

/// Where a part stands among all parts.
fn place_of(part: Part) -> usize
    ensures { result < stacked_count }
{
    match part {
        Part::Billed {
            partition,
            critical,
        } => 2 * partition.min(31) + if critical { 1 } else { 0 },
        Part::Ready => PARTS - 1,
    }
}

/// What the part at this place is filled with.
fn fill_of(place: usize) -> Fill {
    if place == PARTS - 1 {
        Fill::Dark
    } else {
        Fill::Partition(place / 2)
    }
}

/// Whether the part at this place is critical time.
fn is_critical(place: usize) -> bool {
    place % 2 == 1
}

/// How high so much of a column's time stands.
fn height_of(time: Nanos, length: Nanos, height: u64) -> u64
    ensures { result ≤ height }
{
    if length == 0 {
        return 0;
    }
    share(time.min(length), height, length)
}

/// The next box, with the last one where both are equal and touch; else that is written.
fn joined(out: &mut String, last: Option<Boxed>, next: Boxed) -> Result<Boxed, NoMemory> {
    let Some(boxed) = last else {
        return Ok(next);
    };
    if touches(&boxed, &next) {
        return Ok(Boxed {
            width: boxed.width.saturating_add(next.width),
            ..boxed
        });
    }
    add_box(out, &boxed)?;
    Ok(next)
}

/// Whether the next box begins where this one ends, and is as high.
fn touches(boxed: &Boxed, next: &Boxed) -> bool {
    boxed.x.saturating_add(boxed.width) == next.x
        && boxed.top == next.top
        && boxed.height == next.height
}

fn add_box(out: &mut String, boxed: &Boxed) -> Result<(), NoMemory> {
    let Boxed {
        x,
        top,
        width,
        height,
    } = *boxed;
    write!(out, "M{x} {top}h{width}v{height}h-{width}z")
}
