//! The machine at the start of a run.
ghost use Rattle.std.specs.Prelude.{◌≡◌, replicate, IfOk};
ghost use Rattle.aps_model.specs.Opening.{opening};
ghost use Rattle.aps_model.specs.SchedulerState.{idle};

use super::Machine;
use aps_channel::Channels;
use aps_inherit::Inherit;
use aps_model::limits::MOST_COMMANDS;
use aps_model::{CpuNow, NoMemory, Scenario};
use aps_tasks::TaskTable;
use aps_tree::Tree;
use std::alloc::Global;

/// The most changes of a run: two for each command, and one for each partition but `System`.
const MOST_CHANGES: usize = 2079;

impl Machine {
    /// The state at the start of a scenario. It takes all the memory that the steps need.
    pub fn boot(alloc: Global, scenario: &Scenario) -> Result<Machine, NoMemory>
        ensures { IfOk result (λ m. m ≡ opening scenario.now) }
    {
        let shape = *scenario.shape();
        let tree = Tree::of_rows(alloc, shape.parts, scenario.partitions())?;
        let tasks = TaskTable::new(alloc, scenario)?;
        let count = scenario.channels().len() as u16;
        let channels = Channels::new(alloc, count, scenario.threads().len() as u16)?;
        let inherit = Inherit::new(alloc, scenario)?;
        let cpus = start_cpus(alloc, shape.cpus)?;
        Ok(Machine {
            tree,
            shape,
            tasks,
            channels,
            inherit,
            cpus,
            replies: Vec::with_capacity(alloc, MOST_COMMANDS)?,
            changes: Vec::with_capacity(alloc, MOST_CHANGES)?,
        })
    }
}

/// Idle processors.
fn start_cpus(alloc: Global, count: u8) -> Result<Vec<CpuNow>, NoMemory>
    ensures { IfOk result (λ v. v.items ≡ replicate count idle) }
{
    let mut cpus = Vec::with_capacity(alloc, usize::from(count))?;
    for _ in 0..count {
        cpus.push(CpuNow {
            running: None,
            flag: None,
        })?;
    }
    Ok(cpus)
}
