//! The critical budget by which a partition is tested for bankruptcy.
ghost use Rattle.std.specs.Prelude.{◌≡◌, IfOk, None};
ghost use Rattle.aps_model.specs.Shape.{IsShape};
ghost use Rattle.laws_runs.specs.Moments.{moment};
ghost use Rattle.aps_core.specs.Run.{end_of_run, state_of_run};
ghost use Rattle.aps_core.specs.Turn.{HasTurnIn};
ghost use Rattle.view_replay.specs.Entry.{entry_of};
ghost use Rattle.view_shares.specs.CriticalBudget as spec;
ghost use Rattle.view_shares.specs.Standing.{all_commanded, stand, standing_of};

use crate::standing::{do_commands, has_command};
use aps_core::Core;
use aps_model::{CpuId, CpuNow, Entry, Nanos, NoMemory, PartitionId, PartitionRow, Pick, Shape};
use aps_tree::Tree;
use std::alloc::Global;

/// What a partition may use as critical time in a window: its critical budget (ns), and the length of the window (ticks).
#[derive(Clone, Copy)]
pub struct CriticalBudget {
    pub partition: PartitionId,
    pub ns: Nanos,
    pub window: u16,
}

/// The critical budget by which the test of bankruptcy goes in the step of a processor which comes next, where the last step of
/// the core ended at `last`: that of the partition which the processor bills, after the commands of the tick that the step
/// begins, if it begins one. There is none where the processor runs nobody who is critical. `NoMemory` comes where memory runs out.
pub fn budget_next(
    alloc: Global,
    core: &Core,
    last: Nanos,
    cpu: CpuId,
) -> Result<Option<CriticalBudget>, NoMemory>
    requires last { last ≡ moment core.now.entries }
    requires goes_on { end_of_run core.now ≡ None }
    requires turn { HasTurnIn core.now cpu }
    ensures { IfOk result (λ budget. spec.if_lasts (entry_of core.now cpu) budget
        ≡ spec.budget_at core.now.setup.scenario core.now.entries (entry_of core.now cpu)) }
{
    let history = core.history();
    let Some(p) = critical_on(&core.cpu(cpu)) else {
        return Ok(None);
    };
    let moment = core.due(cpu);
    if last < moment && begins_tick(history.shape(), moment) {
        let tick = (moment / history.shape().tick) as u32;
        return Ok(Some(budget_after(alloc, core, tick, p)?));
    }
    Ok(Some(budget_by(history.rows(), history.shape(), p)))
}

/// The partition that a processor bills for critical time, if it runs a thread that is critical.
fn critical_on(cpu: &CpuNow) -> Option<PartitionId>
    ensures { result ≡ spec.critical_on cpu.now.running }
{
    match cpu.running {
        Some(pick) => critical_by(&pick),
        None => None,
    }
}

fn critical_by(pick: &Pick) -> Option<PartitionId>
    ensures { result ≡ spec.billed_critically pick.now }
{
    if pick.critical {
        Some(pick.partition)
    } else {
        None
    }
}

/// The budget, where the entry takes time.
pub fn if_lasts(e: &Entry, budget: Option<CriticalBudget>) -> Option<CriticalBudget>
    ensures { result ≡ spec.if_lasts e.now budget }
{
    if e.from < e.to { budget } else { None }
}

/// The partition that is tested after the entry: the one that it bills, where it bills critical time.
pub fn tested(e: &Entry) -> Option<PartitionId>
    ensures { result ≡ spec.tested_by e.now }
{
    if e.critical && e.from < e.to {
        e.billed
    } else {
        None
    }
}

/// Whether a tick below the horizon begins at this moment.
fn begins_tick(shape: &Shape, moment: Nanos) -> bool
    requires { IsShape shape.now }
    ensures { result ≡ spec.begins_tick shape.now moment }
{
    moment % shape.tick == 0 && moment < shape.horizon()
}

/// The critical budget of the partition after the commands of this tick. `NoMemory` comes where memory runs out.
fn budget_after(
    alloc: Global,
    core: &Core,
    tick: u32,
    p: PartitionId,
) -> Result<CriticalBudget, NoMemory>
    ensures { IfOk result (λ budget. budget
        ≡ spec.budget_by (all_commanded tick core.now.setup.scenario.commands (standing_of (state_of_run core.now))) p) }
{
    let history = core.history();
    let commands = history.scenario().commands();
    if !has_command(commands, tick) {
        return Ok(budget_by(history.rows(), history.shape(), p));
    }
    let mut shape = *history.shape();
    let mut tree = Tree::of_rows(alloc, shape.parts, history.rows())?;
    do_commands(commands, tick, &mut tree, &mut shape);
    Ok(budget_by(tree.rows(), &shape, p))
}

/// The critical budget of the partition by these rows, in the window of this shape; 0 where there is no such row.
fn budget_by(rows: &[PartitionRow], shape: &Shape, p: PartitionId) -> CriticalBudget
    ensures { result ≡ spec.budget_by (stand rows.now shape.now) p }
{
    let ns = match rows.get(p.index()) {
        Some(row) => row.critical,
        None => 0,
    };
    CriticalBudget {
        partition: p,
        ns,
        window: shape.window,
    }
}
