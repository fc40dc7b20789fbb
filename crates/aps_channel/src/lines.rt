//! Lines of numbers: who stands behind whom.
ghost use Rattle.std.specs.Prelude.{◌≡◌, ◌<◌, ◌≤◌, ◌++◌, [], ◌∷◌, length, replicate, IfOk, IfSome};
ghost use Rattle.laws_runs.specs.Waits.{times};
ghost use Rattle.aps_channel.specs.Lines.{AreLinesApart, IsInNone, queue_line_at, with_line, without, first_of};

use crate::links::{Ends, Link, close_gap, link_behind};
use aps_model::NoMemory;
use std::alloc::Global;
use std::marker::Model;

/// How many threads there are at most, since the greatest number of a thread is 1,023.
pub const MOST_THREADS: u16 = 1024;

/// Many lines of numbers, each in order of arrival. A number stands in at most one line, and once. Contracts see the
/// lines, and below which number all numbers are. Room for all is taken when they are made; every other call takes a few
/// steps, however long the lines are.
#[derive(Drop)]
pub struct Lines {
    ends: Vec<Ends>,
    links: Vec<Link>,
}

impl Model for Lines {
    ghost use Rattle.aps_channel.specs.Lines.{Lines as Plain};
    ghost use Rattle.aps_channel.specs.Links.{AreLines, lines_of};
    ghost use Rattle.std.specs.Prelude.{length};

    ghost Value = { Plain };

    ghost view = { λ s. record { lines = lines_of s.links.items s.ends.items; numbers = length s.links.items } };

    ghost invariant = { λ s. AreLines s.links.items s.ends.items };
}

impl Lines {
    /// So many lines in which nobody stands, for the numbers below this one. `NoMemory` comes where there is no room.
    pub fn new(alloc: Global, lines: usize, numbers: u16) -> Result<Lines, NoMemory>
        ensures { IfOk result (λ s. s ≡ record { lines = replicate lines []; numbers = numbers }) }
    {
        let nobody = Ends {
            first: None,
            last: None,
        };
        let alone = Link {
            before: None,
            after: None,
        };
        let ends = vec![in alloc; nobody; lines]?;
        let links = vec![in alloc; alone; numbers as usize]?;
        Ok(Lines { ends, links })
    }

    /// Who stands first in the line. There is nobody exactly where the line is empty.
    pub fn first(&self, line: usize) -> Option<u16>
        requires { line < length self.now.lines }
        ensures same { result ≡ first_of (queue_line_at self.now.lines line) }
        ensures within { IfSome result (λ x. x < self.now.numbers) }
        ensures apart { AreLinesApart self.now.lines }
    {
        self.ends[line].first
    }

    /// The number joins the line behind its last; it stands in no line.
    pub fn push_back(&mut self, line: usize, number: u16)
        requires line { line < length self.old.lines }
        requires number { number < self.old.numbers }
        requires free { IsInNone self.old number }
        ensures { self.new ≡ with_line self.old line (queue_line_at self.old.lines line ++ number ∷ []) }
    {
        let ends = self.ends[line];
        link_behind(&mut self.links, ends.last, number);
        self.ends[line] = ends.with_last(number);
    }

    /// The number leaves the line, in which it stands.
    pub fn remove(&mut self, line: usize, number: u16)
        requires line { line < length self.old.lines }
        requires there { 1 ≤ times number (queue_line_at self.old.lines line) }
        ensures { self.new ≡ with_line self.old line (without number (queue_line_at self.old.lines line)) }
    {
        let ends = self.ends[line];
        let link = self.links[number as usize];
        close_gap(&mut self.links, link);
        self.ends[line] = ends.without(link);
    }
}
