//! The test of bankruptcy after a bill, and what its policy does.
ghost use Rattle.std.specs.Prelude.{◌≡◌, ◌≤◌, ◌++◌, ◌∷◌, [], ◌/◌, length};
ghost use Rattle.aps_model.specs.Bill.{bankrupt, cancel};
ghost use Rattle.aps_model.specs.Limits.{most_ticks};
ghost use Rattle.aps_model.specs.SchedulerState.{row_at};
ghost use Rattle.aps_model.specs.Shape.{horizon};
ghost use Rattle.aps_model.specs.Step.{tested};
ghost use Rattle.aps_core.specs.Counts.{Counts};
ghost use Rattle.aps_core.specs.Room.{changes_of_a_run};

use super::Machine;
use crate::append::push_change;
use aps_critical::{Bill, after_bill, apply};
use aps_model::{Bankruptcy, Change, ChangeKind, Entry, Nanos, PartitionId};
use aps_window::Window;

impl Machine {
    /// The critical budget of a partition, in ns.
    fn critical_budget(&self, p: PartitionId) -> Nanos
        ensures { result ≡ (row_at self.now p).critical }
    {
        match self.tree.row(p) {
            None => 0,
            Some(row) => row.critical,
        }
    }

    /// The partition that the entry, which comes last, makes bankrupt: it bills critical time, and the partition's
    /// critical usage in the window then exceeds its critical budget.
    fn bankrupt(&self, entries: &[Entry], window: &Window, e: &Entry) -> Option<PartitionId>
        requires counts { Counts self.now.shape (entries.now ++ e.now ∷ []) (e.now.to / self.now.shape.tick) window.now }
        ensures { result ≡ bankrupt self.now (entries.now ++ e.now ∷ []) e.now }
    {
        if !e.critical || e.from >= e.to {
            return None;
        }
        let p = e.billed?;
        match after_bill(window, p, self.critical_budget(p)) {
            Bill::Fine => None,
            Bill::Bankrupt { .. } => Some(p),
        }
    }

    /// The partition has no critical budget from this tick on, which is a change where it had one.
    fn cancel(&mut self, tick: u64, p: PartitionId)
        requires few { length (cancel self.old tick p).changes ≤ changes_of_a_run }
        requires tick { tick ≤ most_ticks }
        ensures { self.new ≡ cancel self.old tick p }
    {
        if self.critical_budget(p) == 0 {
            return;
        }
        apply(Bankruptcy::Cancel, &mut self.tree, p);
        let tick = tick as u32;
        let kind = ChangeKind::Cancelled(p);
        push_change(&mut self.changes, Change { tick, kind });
    }

    /// The test of bankruptcy after the bill of an entry, by the policy that stands. The answer is the partition for which
    /// the run ends.
    pub fn test(&mut self, entries: &[Entry], window: &Window, e: &Entry) -> Option<PartitionId>
        requires counts { Counts self.old.shape (entries.now ++ e.now ∷ []) (e.now.to / self.old.shape.tick) window.now }
        requires within { e.now.to ≤ horizon self.old.shape }
        requires changes { length (tested self.old entries.now e.now).state.changes ≤ changes_of_a_run }
        ensures { tested self.old entries.now e.now ≡ record { state = self.new; reboot = result } }
    {
        let p = self.bankrupt(entries, window, e)?;
        match self.shape.bankruptcy {
            Bankruptcy::Basic => None,
            Bankruptcy::Cancel => {
                let tick = self.tick_of(e.to, window.tick());
                self.cancel(tick, p);
                None
            }
            Bankruptcy::Reboot => Some(p),
        }
    }
}
