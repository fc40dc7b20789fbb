//! When a partition that is out of budget is in budget again.
ghost use Rattle.std.specs.Prelude.{◌≡◌, ◌≤◌, All, IfSome, length};
ghost use Rattle.aps_model.specs.Budget.{in_budget};
ghost use Rattle.aps_model.specs.History.{IsEntry};
ghost use Rattle.aps_model.specs.Shape.{IsShape};
ghost use Rattle.aps_model.specs.Usage.{window_used};
ghost use Rattle.view_explain.specs.Again as spec;
ghost use Rattle.aps_model.specs.Limits.{most_entries, thousandths};
ghost use Rattle.view_explain.specs.Again.{last_tick_back};

use crate::scene::Scene;
use aps_model::{Entry, Nanos, PartitionId, Shape, Usage, has_allowance};

impl Scene {
    /// The boundary (ns) at which the partition is in budget again if nothing more is billed; none where it has no budget.
    pub fn again(&self, p: PartitionId) -> Option<Nanos>
        ensures { result ≡ spec.again self.now p }
    {
        match self.tick_back(p) {
            Some(tick) => Some(tick * self.shape().tick),
            None => None,
        }
    }

    /// The first tick from the last entry's on in whose window the partition is in budget.
    fn tick_back(&self, p: PartitionId) -> Option<u64>
        ensures same { result ≡ spec.tick_back self.now p }
        ensures early { IfSome result (λ k. k ≤ last_tick_back) }
    {
        let shape = self.shape();
        let budget = self.budget(p);
        let first = self.tick();
        for k in first..first + u64::from(shape.window) + 1 {
            if is_back(shape, self.entries(), p, budget, k) {
                return Some(k);
            }
        }
        None
    }
}

/// Whether a partition with this budget is in budget in the window at a tick.
fn is_back(shape: &Shape, entries: &[Entry], p: PartitionId, budget: u16, tick: u64) -> bool
    requires shape { IsShape shape.now }
    requires entries { All IsEntry entries.now }
    requires few { length entries.now ≤ most_entries }
    requires budget { budget ≤ thousandths }
    requires tick { tick ≤ last_tick_back }
    ensures { result ≡ in_budget shape.now (window_used shape.now entries.now tick p) budget }
{
    let end = tick + 1;
    let first = end.saturating_sub(u64::from(shape.window));
    let usage = Usage::of(entries, shape.tick, first, end);
    has_allowance(usage.used[p.index()], budget, shape)
}
