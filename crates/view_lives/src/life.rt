//! The life of one thread.
ghost use Rattle.std.specs.Prelude.{◌≡◌, ◌<◌, [], length, OnOk};
ghost use Rattle.view_lives.specs.Life.{goes_on, lengthened, with_piece};

use crate::doing::{Doing, is_same};
use aps_model::{Nanos, NoMemory};
use std::alloc::Global;
use std::marker::Model;

/// From one moment to another (ns) a thread does this.
#[derive(Clone, Copy, PartialEq, Eq)]
pub struct Segment {
    pub from: Nanos,
    pub to: Nanos,
    pub doing: Doing,
}

/// What a thread does over time: segments in order.
#[derive(Drop)]
pub struct Life {
    segments: Vec<Segment>,
}

impl Model for Life {
    ghost use Rattle.std.specs.Prelude.{List};
    ghost use Rattle.view_lives.specs.declared.life.Segment.{Segment as Plain};

    ghost Value = { List Plain };

    ghost view = { λ life. life.segments.items };
}

impl Life {
    /// A life that has not begun.
    pub fn new(alloc: Global) -> Life
        ensures { result ≡ [] }
    {
        Life {
            segments: Vec::new(alloc),
        }
    }

    /// Its segments, in order.
    pub fn segments(&self) -> &[Segment]
        ensures { result.now ≡ self.now }
    {
        self.segments.as_slice()
    }

    /// The life goes on with this piece: a new segment, or a longer last one where that is of the same. A piece that
    /// lasts no time changes nothing. `NoMemory` leaves the life as it was.
    pub fn add(&mut self, piece: Segment) -> Result<(), NoMemory>
        ensures { OnOk result (self.new ≡ with_piece self.old piece) }
    {
        if piece.from >= piece.to {
            return Ok(());
        }
        if self.goes_on(&piece.doing) {
            self.lengthen(piece.to);
            return Ok(());
        }
        self.segments.push(piece)?;
        Ok(())
    }

    /// Whether the life ends with the same.
    fn goes_on(&self, doing: &Doing) -> bool
        ensures { result ≡ goes_on self.now doing.now }
    {
        match self.segments.last() {
            Some(last) => is_same(&last.doing, doing),
            None => false,
        }
    }

    /// The last segment, which is there, ends at this moment.
    fn lengthen(&mut self, to: Nanos)
        requires { 0 < length self.old }
        ensures { self.new ≡ lengthened self.old to }
    {
        let last = self.segments.len() - 1;
        self.segments[last].to = to;
    }
}
