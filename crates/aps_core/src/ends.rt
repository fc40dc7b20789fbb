//! Where each processor's last entry ended, kept beside the entries so that nobody looks through them.
ghost use Rattle.std.specs.Prelude.{◌≡◌, ◌≤◌, List, [], ◌∷◌, ◌++◌, All, IfSome};
ghost use Rattle.aps_model.specs.declared.entry.Entry.{Entry as EntryOf};
ghost use Rattle.aps_model.specs.Due.{last_end, last_to};
ghost use Rattle.aps_model.specs.History.{IsEntry};
ghost use Rattle.aps_model.specs.Limits.{last_moment};
ghost use Rattle.aps_core.specs.LastEnds.{AreEnds};

use aps_model::limits::MOST_CPUS;
use aps_model::{CpuId, Entry, Nanos};
use std::marker::Model;

/// The end of the last entry of each processor that has one. Contracts see the row of them.
#[derive(Drop)]
pub struct Ends {
    row: [Option<Nanos>; MOST_CPUS],
}

impl Model for Ends {
    ghost use Rattle.std.specs.Prelude.{ℕ, List, Option};

    ghost Value = { List (Option ℕ) };

    ghost view = { λ e. e.row };

    ghost use Rattle.std.specs.Prelude.{◌≡◌, length};
    ghost use Rattle.aps_model.specs.Limits.{most_cpus};

    ghost invariant = { λ e. length e.row ≡ most_cpus };
}

impl Ends {
    /// Those of no entries.
    pub fn new() -> Self
        ensures { AreEnds [] result }
    {
        Ends {
            row: [None; MOST_CPUS],
        }
    }

    /// The entry is now the last one of its processor.
    pub fn add(&mut self, e: &Entry)
        ensures { (h : List EntryOf) → AreEnds h self.old → AreEnds (h ++ e.now ∷ []) self.new }
    {
        self.row[e.cpu.index()] = Some(e.to);
    }

    /// Where the processor's last entry ended.
    pub fn last_to(&self, entries: &[Entry], cpu: CpuId) -> Option<Nanos>
        requires entries { All IsEntry entries.now }
        requires ends { AreEnds entries.now self.now }
        ensures same { result ≡ last_to entries.now cpu }
        ensures within { IfSome result (λ to. to ≤ last_moment) }
    {
        self.row[cpu.index()]
    }

    /// The same, or 0 where it has no entry.
    pub fn last_end(&self, entries: &[Entry], cpu: CpuId) -> Nanos
        requires entries { All IsEntry entries.now }
        requires ends { AreEnds entries.now self.now }
        ensures same { result ≡ last_end entries.now cpu }
        ensures within { result ≤ last_moment }
    {
        self.last_to(entries, cpu).unwrap_or(0)
    }
}
