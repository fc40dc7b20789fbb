//! For how long partitions with a budget were without work.
ghost use Rattle.std.specs.Prelude.{◌≡◌, ◌<◌, length, IfOk, OnOk};
ghost use Rattle.view_marks.specs.Starved as spec;

use aps_model::{Entry, Nanos, NoMemory, PartitionId};
use std::alloc::Global;
use std::marker::Model;

/// From one moment to another (ns) the last entry named this partition as the one without work.
#[derive(Clone, Copy, PartialEq, Eq)]
pub struct Starved {
    pub from: Nanos,
    pub to: Nanos,
    pub partition: PartitionId,
}

/// The bars so far, and where the last entry ended and which partition it named.
#[derive(Drop)]
struct Without {
    bars: Vec<Starved>,
    moment: Nanos,
    named: Option<PartitionId>,
}

impl Model for Without {
    ghost use Rattle.view_marks.specs.Starved.{Without as Plain};

    ghost Value = { Plain };

    ghost view = { λ without. record { bars = without.bars.items; moment = without.moment; named = without.named } };
}

/// For how long each partition stood as the one without work that the last of these entries named, in order. Bars that follow on one
/// another and are of the same partition are one. `NoMemory` comes where memory runs out.
pub fn all_starved(alloc: Global, entries: &[Entry]) -> Result<Vec<Starved>, NoMemory>
    ensures { IfOk result (λ bars. bars.items ≡ spec.starved_of entries.now) }
{
    let mut without = Without::none(alloc);
    for e in entries {
        without.add(e)?;
    }
    Ok(without.bars)
}

impl Without {
    /// Before the first entry.
    fn none(alloc: Global) -> Without
        ensures { result ≡ spec.without_at_start }
    {
        Without {
            bars: Vec::new(alloc),
            moment: 0,
            named: None,
        }
    }

    /// This entry comes next.
    fn add(&mut self, e: &Entry) -> Result<(), NoMemory>
        ensures { OnOk result (self.new ≡ spec.starved_with_entry self.old e.now) }
    {
        if let Some(partition) = self.named {
            self.add_bar(Starved {
                from: self.moment,
                to: e.to,
                partition,
            })?;
        }
        self.moment = e.to;
        self.named = e.starved;
        Ok(())
    }

    /// The bars with one more, which lengthens the last one where it follows on that; one that lasts no time changes nothing.
    fn add_bar(&mut self, bar: Starved) -> Result<(), NoMemory>
        ensures { OnOk result (self.new ≡ record self.old { bars = spec.with_starved self.old.bars bar }) }
    {
        if bar.from >= bar.to {
            return Ok(());
        }
        if self.goes_on(&bar) {
            self.lengthen(bar.to);
            return Ok(());
        }
        self.bars.push(bar)?;
        Ok(())
    }

    /// Whether the bar follows on the last one.
    fn goes_on(&self, bar: &Starved) -> bool
        ensures { result ≡ spec.starved_goes_on self.now.bars bar.now }
    {
        match self.bars.last() {
            Some(last) => last.to == bar.from && last.partition == bar.partition,
            None => false,
        }
    }

    /// The last bar, which is there, ends at this moment.
    fn lengthen(&mut self, to: Nanos)
        requires { 0 < length self.old.bars }
        ensures { self.new ≡ record self.old { bars = spec.lengthened_starved self.old.bars to } }
    {
        let last = self.bars.len() - 1;
        self.bars[last].to = to;
    }
}
