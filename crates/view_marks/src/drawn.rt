//! What is drawn of a history, made beside a core that makes its steps again.
ghost use Rattle.std.specs.Prelude.{◌≡◌, ◌++◌, ◌<◌, ◌≤◌, [], drop, length, replicate, IfOk, OnOk};
ghost use Rattle.aps_model.specs.Legal.{IsLegal};
ghost use Rattle.aps_model.specs.Valid.{IsScenario};
ghost use Rattle.aps_core.specs.Run.{state_of_run};
ghost use Rattle.aps_core.specs.Turn.{IsTurnTaken, with_entry};
ghost use Rattle.view_marks.specs.Alteration.{altered_between};
ghost use Rattle.view_marks.specs.Bar.{AreLongerLanes};
ghost use Rattle.view_marks.specs.Drawn.{IsDrawnHistory};
ghost use Rattle.aps_model.specs.Limits.{most_entries};

use crate::alteration::{Alteration, add_cancels, add_commands};
use crate::bar::{Lane, bar_of};
use aps_core::Core;
use aps_model::{
    Change, CommandRow, Entry, History, NoMemory, Order, PartitionRow, Reply, Scenario,
};
use std::alloc::Global;
use std::marker::Model;
use view_replay::{boot, retrace, rows_of};

/// What each processor ran, by its number; what was altered, in order; and the partition rows that stand last.
#[derive(Drop)]
pub struct Drawn {
    lanes: Vec<Lane>,
    alterations: Vec<Alteration>,
    rows: Vec<PartitionRow>,
}

impl Model for Drawn {
    ghost use Rattle.view_marks.specs.Drawn.{Drawn as Plain};

    ghost Value = { Plain };

    ghost view = { λ drawn. record { lanes = drawn.lanes.items; alterations = drawn.alterations.items; rows = drawn.rows.items } };
}

impl Drawn {
    /// What each processor ran, by its number.
    pub fn lanes(&self) -> &[Lane]
        ensures { result.now ≡ self.now.lanes }
    {
        self.lanes.as_slice()
    }

    /// What was altered, in order.
    pub fn alterations(&self) -> &[Alteration]
        ensures { result.now ≡ self.now.alterations }
    {
        self.alterations.as_slice()
    }

    /// The partition rows that stand last.
    pub fn rows(&self) -> &[PartitionRow]
        ensures { result.now ≡ self.now.rows }
    {
        self.rows.as_slice()
    }

    /// What was altered, and the partition rows that stand last, taken out. The lanes are dropped.
    pub fn without_lanes(self) -> (Vec<Alteration>, Vec<PartitionRow>)
        ensures alterations { result.0.items ≡ self.alterations }
        ensures rows { result.1.items ≡ self.rows }
    {
        (self.alterations, self.rows)
    }
}

/// What is drawn of a history, in one pass over its entries, which are legal in this order of turns. `NoMemory` comes where memory
/// runs out.
pub fn drawn_of(alloc: Global, history: &History, order: Order) -> Result<Drawn, NoMemory>
    requires legal { IsLegal history.now.scenario order history.now.entries }
    requires few { length history.now.entries ≤ most_entries }
    ensures { IfOk result (IsDrawnHistory history.now.scenario history.now.entries) }
{
    let mut core = boot(alloc, history, order)?;
    drawn_by(alloc, &mut core, history.scenario(), history.entries())
}

/// What is drawn of these entries, whose steps the core makes, which has made none.
fn drawn_by(
    alloc: Global,
    core: &mut Core,
    scenario: &Scenario,
    entries: &[Entry],
) -> Result<Drawn, NoMemory>
    requires valid { IsScenario scenario.now }
    requires scenario { core.old.setup.scenario ≡ scenario.now }
    requires begins { core.old.entries ≡ [] }
    requires legal { IsLegal scenario.now core.old.setup.order entries.now }
    requires few { length entries.now ≤ core.old.setup.limit }
    ensures { IfOk result (IsDrawnHistory scenario.now entries.now) }
{
    let mut lanes = empty_lanes(alloc, usize::from(scenario.shape().cpus))?;
    let mut alterations = Vec::new(alloc);
    for e in entries {
        lengthen(&mut lanes, core, e)?;
        go_on(&mut alterations, core, scenario.commands(), e)?;
    }
    let rows = rows_of(alloc, core)?;
    Ok(Drawn {
        lanes,
        alterations,
        rows,
    })
}

/// So many lanes without bars.
fn empty_lanes(alloc: Global, count: usize) -> Result<Vec<Lane>, NoMemory>
    ensures { IfOk result (λ lanes. lanes.items ≡ replicate count []) }
{
    let mut lanes = Vec::with_capacity(alloc, count)?;
    for _ in 0..count {
        lanes.push(Lane::new(alloc))?;
    }
    Ok(lanes)
}

/// The entry's lane goes on with it, where the core has made the steps before it.
fn lengthen(lanes: &mut Vec<Lane>, core: &Core, e: &Entry) -> Result<(), NoMemory>
    requires { e.now.cpu < length lanes.old.items }
    ensures { OnOk result (AreLongerLanes (state_of_run core.now) e.now lanes.old.items lanes.new.items) }
{
    if let Some(bar) = bar_of(core, e) {
        lanes[e.cpu.index()].add(bar)?;
    }
    Ok(())
}

/// The core makes the step of the entry, and what that altered is appended.
fn go_on(
    alterations: &mut Vec<Alteration>,
    core: &mut Core,
    commands: &[CommandRow],
    e: &Entry,
) -> Result<(), NoMemory>
    requires { IsTurnTaken core.old e.now.cpu e.now }
    ensures core { OnOk result (core.new ≡ with_entry core.old e.now) }
    ensures alterations { OnOk result (alterations.new.items ≡ alterations.old.items
        ++ altered_between commands.now e.now.to (state_of_run core.old) (state_of_run (with_entry core.old e.now))) }
{
    let replies = core.history().replies().len();
    let changes = core.history().changes().len();
    retrace(core, e);
    let history = core.history();
    add_commands(alterations, commands, e.to, replies_from(history, replies))?;
    add_cancels(alterations, e.to, changes_from(history, changes))
}

/// The replies of the history but for so many at first.
fn replies_from(history: &History, count: usize) -> &[Reply]
    ensures { result.now ≡ drop count history.now.replies }
{
    let replies = history.replies();
    &replies[count.min(replies.len())..]
}

/// The changes of the history but for so many at first.
fn changes_from(history: &History, count: usize) -> &[Change]
    ensures { result.now ≡ drop count history.now.changes }
{
    let changes = history.changes();
    &changes[count.min(changes.len())..]
}
