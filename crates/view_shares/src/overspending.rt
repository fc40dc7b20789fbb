//! By how much each partition overspends its critical budget: one pass over the entries of a recorded history.
ghost use Rattle.std.specs.Prelude.{◌≡◌, ℕ, ◌<◌, ◌≤◌, ◌++◌, [], length, slice_index_or, is_some, None, IfOk, OnOk};
ghost use Rattle.aps_model.specs.Legal.{IsLegal};
ghost use Rattle.aps_core.specs.Run.{end_of_run};
ghost use Rattle.aps_core.specs.Turn.{HasTurnIn, with_entry};
ghost use Rattle.view_replay.specs.Retraced.{order_of_run, scenario_of_run};
ghost use Rattle.view_replay.specs.Entry.{entry_of};
ghost use Rattle.view_shares.specs.Overspending.{AreFewOverspent, PassFollowsCore, excess_by, used_by};
ghost use Rattle.view_shares.specs.CriticalBudget.{AreUntestedFrom, tested_by};
ghost use Rattle.view_shares.specs.Usages.{for_span};
ghost use Rattle.view_shares.specs.Spent.{AreSpent, overspent_listed, overspent_as, overspent_by, overspent_of, spent_with};
ghost use Rattle.aps_model.specs.Limits.{longest_window, most_entries, most_partitions, shortest_window};

use crate::critical_budget::{CriticalBudget, budget_next, if_lasts, tested};
use crate::spent::Spent;
use crate::usages::Usages;
use aps_core::Core;
use aps_model::limits::MOST_PARTITIONS;
use aps_model::{CpuId, Entry, History, Nanos, NoMemory, Order};
use std::alloc::Global;
use view_replay::{boot, take_turn};
use view_samples::Overspent;

/// How far a pass has come: a core that has made the steps of so many entries again, when the last of them ended, the time
/// that they bill, and by how much each partition has overspent.
#[derive(Drop)]
pub struct Pass {
    pub core: Core,
    pub moment: Nanos,
    pub time: Usages,
    pub spent: [Option<Spent>; MOST_PARTITIONS],
}

/// How often each partition overspent its critical budget in a history that is legal in this order of turns, when first, and
/// by how much at worst. `NoMemory` comes where memory runs out.
pub fn all_spent(
    alloc: Global,
    history: &History,
    order: Order,
) -> Result<[Option<Spent>; 32], NoMemory>
    requires legal { IsLegal history.now.scenario order history.now.entries }
    requires few { length history.now.entries ≤ most_entries }
    ensures { IfOk result (λ spent. AreSpent history.now.scenario history.now.entries spent) }
{
    let entries = history.entries();
    let count = tested_count(entries);
    let core = boot(alloc, history, order)?;
    let mut pass = Pass::begin(alloc, core)?;
    pass.go_through(alloc, &entries[..count])?;
    Ok(pass.spent)
}

/// How many entries there are up to the last one that is tested for bankruptcy: no later one overspends.
fn tested_count(entries: &[Entry]) -> usize
    ensures within { result ≤ length entries.now }
    ensures later { AreUntestedFrom result entries.now }
{
    let mut count = 0;
    for i in 0..entries.len() {
        if is_tested(&entries[i]) {
            count = i + 1;
        }
    }
    count
}

/// Whether the entry is tested for bankruptcy.
fn is_tested(e: &Entry) -> bool
    ensures { result ≡ is_some (tested_by e.now) }
{
    tested(e).is_some()
}

/// Each entry of a history that made its partition bankrupt, whatever the policy: its end, its partition, and the excess of
/// critical usage over the critical budget at its test. The history is legal in this order of turns. `NoMemory` comes where memory
/// runs out.
pub fn all_overspent(
    alloc: Global,
    history: &History,
    order: Order,
) -> Result<Vec<Overspent>, NoMemory>
    requires legal { IsLegal history.now.scenario order history.now.entries }
    requires few { length history.now.entries ≤ most_entries }
    ensures { IfOk result (λ all. all.items ≡ overspent_of history.now.scenario history.now.entries) }
{
    let core = boot(alloc, history, order)?;
    let mut pass = Pass::begin(alloc, core)?;
    let all = pass.collect(alloc, history.entries())?;
    Ok(all)
}

impl Pass {
    /// A pass beside a core that has made no step.
    pub fn begin(alloc: Global, core: Core) -> Result<Pass, NoMemory>
        requires begins { core.entries ≡ [] }
        ensures at { IfOk result PassFollowsCore }
        ensures core { IfOk result (λ pass. pass.core ≡ core) }
    {
        let window = core.history().scenario().shape().window;
        let time = Usages::new(alloc, window)?;
        Ok(Pass {
            core,
            moment: 0,
            time,
            spent: [None; MOST_PARTITIONS],
        })
    }

    /// Makes the steps of these entries, from the first one on, and gives what they overspend.
    fn collect(&mut self, alloc: Global, entries: &[Entry]) -> Result<Vec<Overspent>, NoMemory>
        requires at { PassFollowsCore self.old }
        requires begins { self.old.core.entries ≡ [] }
        requires legal { IsLegal (scenario_of_run self.old.core) (order_of_run self.old.core) entries.now }
        requires few { length entries.now ≤ self.old.core.setup.limit }
        requires most { self.old.core.setup.limit ≤ most_entries }
        ensures { IfOk result (λ all. all.items ≡ overspent_of (scenario_of_run self.old.core) entries.now) }
    {
        let mut all = Vec::new(alloc);
        for e in entries {
            let overspent = self.go_on(alloc, e.cpu)?;
            add(&mut all, overspent)?;
        }
        Ok(all)
    }

    /// Makes the steps of these entries, from the first one on.
    fn go_through(&mut self, alloc: Global, entries: &[Entry]) -> Result<(), NoMemory>
        requires at { PassFollowsCore self.old }
        requires begins { self.old.core.entries ≡ [] }
        requires legal { IsLegal (scenario_of_run self.old.core) (order_of_run self.old.core) entries.now }
        requires few { length entries.now ≤ self.old.core.setup.limit }
        requires most { self.old.core.setup.limit ≤ most_entries }
        ensures { OnOk result (AreSpent (scenario_of_run self.old.core) entries.now self.new.spent) }
    {
        for e in entries {
            let _overspent = self.go_on(alloc, e.cpu)?;
        }
        Ok(())
    }

    /// Makes the step of a processor that has the turn, and gives what that overspends.
    pub fn go_on(&mut self, alloc: Global, cpu: CpuId) -> Result<Option<Overspent>, NoMemory>
        requires at { PassFollowsCore self.old }
        requires goes_on { end_of_run self.old.core ≡ None }
        requires turn { HasTurnIn self.old.core cpu }
        requires few { self.old.core.setup.limit ≤ most_entries }
        ensures at { OnOk result (PassFollowsCore self.new) }
        ensures core { OnOk result (self.new.core ≡ with_entry self.old.core (entry_of self.old.core cpu)) }
        ensures overspent { IfOk result (λ overspent. overspent
            ≡ overspent_by (scenario_of_run self.old.core) self.old.core.entries (entry_of self.old.core cpu)) }
        ensures room { OnOk result (length self.old.core.entries < self.old.core.setup.limit) }
    {
        // the check wants to see here that the core's entries are legal
        let _history = self.core.history();
        let budget = budget_next(alloc, &self.core, self.moment, cpu)?;
        let e = take_turn(&mut self.core, cpu);
        self.time.add(&self.core, &e);
        self.moment = e.to;
        match if_lasts(&e, budget) {
            Some(budget) => Ok(self.compare(&budget)),
            None => Ok(None),
        }
    }

    /// Notes by how much the partition has overspent this budget at the last moment, if it has, and gives it.
    fn compare(&mut self, budget: &CriticalBudget) -> Option<Overspent>
        requires least { shortest_window ≤ budget.now.window }
        requires most { budget.now.window ≤ longest_window }
        requires span { self.old.time.window.span ≡ self.old.time.span }
        requires few { AreFewOverspent self.old.spent }
        ensures same { self.new ≡ record self.old { time = self.new.time; spent = self.new.spent } }
        ensures time { self.new.time ≡ for_span budget.now.window self.old.time }
        ensures within { budget.now.partition < most_partitions }
        ensures overspent { result ≡ overspent_as self.old.moment budget.now.partition
            (excess_by budget.now (used_by budget.now self.old.time) budget.now.partition) }
        ensures spent { (p : ℕ)
            → p < most_partitions
            → slice_index_or self.new.spent p None
            ≡ spent_with (slice_index_or self.old.spent p None) self.old.moment
            (excess_by budget.now (used_by budget.now self.old.time) p) }
    {
        let p = budget.partition.index();
        let used = self.time.used_in(budget.partition, budget.window);
        if budget.ns >= used {
            return None;
        }
        let excess = used - budget.ns;
        self.spent[p] = Some(Spent::once(&self.spent[p], self.moment, excess));
        Some(Overspent {
            moment: self.moment,
            partition: budget.partition,
            excess,
        })
    }
}

/// Puts what there is behind the others.
fn add(all: &mut Vec<Overspent>, overspent: Option<Overspent>) -> Result<(), NoMemory>
    ensures { OnOk result (all.new.items ≡ all.old.items ++ overspent_listed overspent) }
{
    if let Some(overspent) = overspent {
        all.push(overspent)?;
    }
    Ok(())
}
