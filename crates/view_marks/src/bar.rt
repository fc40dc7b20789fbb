//! What one processor ran: bars, each of one thread on one bill.
ghost use Rattle.std.specs.Prelude.{◌≡◌, ◌<◌, [], length, OnOk};
ghost use Rattle.aps_core.specs.Run.{state_of_run};
ghost use Rattle.view_marks.specs.Bar as spec;

use aps_core::Core;
use aps_model::{Entry, Nanos, NoMemory, PartitionId, ThreadId};
use std::alloc::Global;
use std::marker::Model;

/// From one moment to another (ns) a processor ran this thread, which is billed to this partition, as critical time where
/// `critical` is set, and whose own partition was this one.
#[derive(Clone, Copy, PartialEq, Eq)]
pub struct Bar {
    pub from: Nanos,
    pub to: Nanos,
    pub thread: ThreadId,
    pub partition: PartitionId,
    pub own: PartitionId,
    pub critical: bool,
}

/// What a processor ran over time: bars in order. It ran nobody between them.
#[derive(Drop)]
pub struct Lane {
    bars: Vec<Bar>,
}

impl Model for Lane {
    ghost use Rattle.std.specs.Prelude.{List};
    ghost use Rattle.view_marks.specs.declared.bar.Bar.{Bar as Plain};

    ghost Value = { List Plain };

    ghost view = { λ lane. lane.bars.items };
}

impl Lane {
    /// A lane without bars.
    pub fn new(alloc: Global) -> Lane
        ensures { result ≡ [] }
    {
        Lane {
            bars: Vec::new(alloc),
        }
    }

    /// Its bars, in order.
    pub fn bars(&self) -> &[Bar]
        ensures { result.now ≡ self.now }
    {
        self.bars.as_slice()
    }

    /// The lane goes on with this bar: it lengthens the last one where that ends where this begins and is the same in all else,
    /// and is a bar of its own where it isn't. `NoMemory` leaves the lane as it was.
    pub fn add(&mut self, bar: Bar) -> Result<(), NoMemory>
        ensures { OnOk result (self.new ≡ spec.joined_bar self.old bar) }
    {
        if self.goes_on(&bar) {
            self.lengthen(bar.to);
            return Ok(());
        }
        self.bars.push(bar)?;
        Ok(())
    }

    /// Whether the bar goes on with the last one.
    fn goes_on(&self, bar: &Bar) -> bool
        ensures { result ≡ spec.lane_goes_on self.now bar.now }
    {
        match self.bars.last() {
            Some(last) => is_followed(last, bar),
            None => false,
        }
    }

    /// The last bar, which is there, ends at this moment.
    fn lengthen(&mut self, to: Nanos)
        requires { 0 < length self.old }
        ensures { self.new ≡ spec.lengthened_lane self.old to }
    {
        let last = self.bars.len() - 1;
        self.bars[last].to = to;
    }
}

/// Whether the second bar begins where the first ends, and is the same in all else.
fn is_followed(bar: &Bar, next: &Bar) -> bool
    ensures { result ≡ spec.is_followed bar.now next.now }
{
    bar.to == next.from
        && bar.thread == next.thread
        && bar.partition == next.partition
        && bar.own == next.own
        && bar.critical == next.critical
}

/// The bar of the next entry, where the core has made the steps before it: there is none where the entry takes no time, or
/// its processor ran nobody.
pub fn bar_of(core: &Core, e: &Entry) -> Option<Bar>
    ensures { result ≡ spec.bar_of (state_of_run core.now) e.now }
{
    match (e.ran, e.billed) {
        (Some(thread), Some(partition)) if e.from < e.to => Some(Bar {
            from: e.from,
            to: e.to,
            thread,
            partition,
            own: core.thread(thread).own.partition,
            critical: e.critical,
        }),
        _ => None,
    }
}
