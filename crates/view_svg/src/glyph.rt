//! Small marks, and rows of them.
ghost use Rattle.std.specs.Prelude.{◌≡◌, ◌≤◌};

use aps_model::NoMemory;
use std::fmt::Write;

/// How near a mark may stand to the last one drawn.
const NEAR: u64 = 70;

/// What a mark tells: a flag of a processor, a message that is taken, one that waits, a reply, an overspent budget, a change.
#[derive(Clone, Copy)]
pub enum Glyph {
    Flag,
    Sent,
    Blocked,
    Reply,
    Spent,
    Change,
}

/// A mark in the middle at `x`, from `y` on downwards.
pub fn add_glyph(out: &mut String, glyph: Glyph, x: u64, y: u64) -> Result<(), NoMemory>
    requires { x ≤ 1000000000 }
{
    let left = x.saturating_sub(30);
    let right = x + 30;
    let far = x.saturating_sub(35);
    match glyph {
        Glyph::Flag => write!(
            out,
            "<path d=\"M{x} {y}v70\" stroke=\"#222222\" stroke-width=\"18\"/>\n"
        ),
        Glyph::Sent => write!(
            out,
            "<path d=\"M{left} {y}l60 35l-60 35z\" fill=\"#222222\"/>\n"
        ),
        Glyph::Blocked => write!(
            out,
            "<path d=\"M{left} {y}l60 35l-60 35z\" fill=\"#ffffff\" stroke=\"#222222\" stroke-width=\"10\"/>\n"
        ),
        Glyph::Reply => write!(
            out,
            "<path d=\"M{right} {y}l-60 35l60 35z\" fill=\"#222222\"/>\n"
        ),
        Glyph::Spent => write!(
            out,
            "<path d=\"M{far} {y}h70l-35 70z\" fill=\"#222222\"/>\n"
        ),
        Glyph::Change => write!(
            out,
            "<path d=\"M{x} {y}l35 35l-35 35l-35 -35z\" fill=\"#222222\"/>\n"
        ),
    }
}

/// A row of marks, from left to right, and where the last one drawn stands.
#[derive(Clone, Copy)]
pub struct GlyphRow {
    y: u64,
    last: Option<u64>,
}

impl GlyphRow {
    /// A row without marks.
    pub fn at(y: u64) -> GlyphRow {
        GlyphRow { y, last: None }
    }

    /// One mark more, which is left out where it is too near the last one drawn.
    pub fn add(&mut self, out: &mut String, glyph: Glyph, x: u64) -> Result<(), NoMemory>
        requires { x ≤ 1000000000 }
    {
        if self.is_near(x) {
            return Ok(());
        }
        self.last = Some(x);
        add_glyph(out, glyph, x, self.y)
    }

    fn is_near(&self, x: u64) -> bool {
        match self.last {
            Some(last) => x < last.saturating_add(NEAR),
            None => false,
        }
    }
}
