//! By how much each partition overspends its critical budget, beside the run itself.
ghost use Rattle.std.specs.Prelude.{◌≡◌, ◌≤◌, [], IfOk, IsSome};
ghost use Rattle.aps_core.specs.Run.{end_of_run};
ghost use Rattle.view_shares.specs.Spent.{AreSpent};
ghost use Rattle.aps_model.specs.Limits.{most_entries};

use crate::overspending::Pass;
use crate::spent::Spent;
use aps_core::Core;
use aps_model::NoMemory;
use aps_model::limits::MOST_PARTITIONS;
use std::alloc::Global;

/// A core whose run has ended, and how often each partition overspent its critical budget in it, when first, and by how much at worst.
#[derive(Drop)]
pub struct Spending {
    pub core: Core,
    pub spent: [Option<Spent>; MOST_PARTITIONS],
}

/// The core, which has made no step, makes the steps of its run in fixed order, to the end; beside it is noted who overspends.
/// `NoMemory` comes where memory runs out, and the core is dropped.
pub fn spend_run(alloc: Global, core: Core) -> Result<Spending, NoMemory>
    requires begins { core.entries ≡ [] }
    requires few { core.setup.limit ≤ most_entries }
    ensures setup { IfOk result (λ spending. spending.core.setup ≡ core.setup) }
    ensures ended { IfOk result (λ spending. IsSome (end_of_run spending.core)) }
    ensures spent { IfOk result (λ spending. AreSpent spending.core.setup.scenario spending.core.entries spending.spent) }
{
    let mut pass = Pass::begin(alloc, core)?;
    while pass.core.ended().is_none() {
        let first = pass.core.first_due();
        let _overspent = pass.go_on(alloc, first)?;
    }
    Ok(Spending {
        core: pass.core,
        spent: pass.spent,
    })
}
