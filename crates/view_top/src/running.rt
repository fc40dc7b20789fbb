//! What comes of a scenario that is run.
ghost use Rattle.std.specs.Prelude.{◌≡◌, ◌≤◌, [], IfOk};
ghost use Rattle.aps_model.specs.declared.entry.Order.TheVariants.{Fixed};
ghost use Rattle.aps_core.specs.Run.{end_of_run};
ghost use Rattle.view_words.specs.declared.asked.Report.TheVariants.{Latency, Shares};
ghost use Rattle.view_top.specs.Cause.{told_by};
ghost use Rattle.view_top.specs.Due.{IsDueOfRun, IsDueOfSetup, status_by};
ghost use Rattle.aps_model.specs.Limits.{most_entries};

use crate::outcome::Outcome;
use crate::viewing::{of_text, told};
use aps_calls::status::Status;
use aps_core::Core;
use aps_model::{NoMemory, Order, Scenario};
use std::alloc::Global;
use view_latency::{follow_run, latency_text_of};
use view_shares::{shares_text_with, spend_run};
use view_words::{Asked, Report};

/// Runs the scenario in fixed order, and makes the report that was asked for. What `latency` and `shares` tell is noted while the
/// core makes its steps, so that no other core has to make them again for that.
pub fn ran(alloc: Global, asked: Asked, scenario: Scenario) -> Result<Outcome, NoMemory>
    requires some { 1 ≤ asked.limit }
    requires few { asked.limit ≤ most_entries }
    ensures { IfOk result (λ outcome. IsDueOfRun asked scenario (told_by outcome)) }
{
    let core = Core::boot(alloc, scenario, Order::Fixed, asked.limit)?;
    match asked.report {
        Report::Latency => ran_for_latency(alloc, core),
        Report::Shares => ran_for_shares(alloc, core),
        report => ran_before(alloc, report, core),
    }
}

/// The same for `latency`, by a core that begins.
fn ran_for_latency(alloc: Global, core: Core) -> Result<Outcome, NoMemory>
    requires begins { core.entries ≡ [] }
    requires fixed { core.setup.order ≡ Fixed }
    requires few { core.setup.limit ≤ most_entries }
    ensures { IfOk result (λ outcome. IsDueOfSetup Latency core.setup (told_by outcome)) }
{
    let mut core = core;
    let followed = follow_run(alloc, &mut core)?;
    let history = core.history();
    // the check wants to see here that the entries are no more than there is room for
    let _entries = history.entries();
    let text = latency_text_of(alloc, history, followed)?;
    Ok(of_text(Report::Latency, ended_as(&core), Some(text)))
}

/// The same for `shares`, by a core that begins.
fn ran_for_shares(alloc: Global, core: Core) -> Result<Outcome, NoMemory>
    requires begins { core.entries ≡ [] }
    requires fixed { core.setup.order ≡ Fixed }
    requires few { core.setup.limit ≤ most_entries }
    ensures { IfOk result (λ outcome. IsDueOfSetup Shares core.setup (told_by outcome)) }
{
    let spending = spend_run(alloc, core)?;
    let core = spending.core;
    let history = core.history();
    // the check wants to see here that the entries are no more than there is room for
    let _entries = history.entries();
    let text = shares_text_with(alloc, history, core.order(), &spending.spent)?;
    Ok(of_text(Report::Shares, ended_as(&core), Some(text)))
}

/// The same for another report, which is made once the run has ended, by a core that begins.
fn ran_before(alloc: Global, report: Report, core: Core) -> Result<Outcome, NoMemory>
    requires begins { core.entries ≡ [] }
    requires fixed { core.setup.order ≡ Fixed }
    requires few { core.setup.limit ≤ most_entries }
    ensures { IfOk result (λ outcome. IsDueOfSetup report core.setup (told_by outcome)) }
{
    let mut core = core;
    let end = core.finish();
    let outcome = told(alloc, report, core, Status::of_end(&end))?;
    Ok(outcome)
}

/// The status of a run with the end of the core's, if that has come.
fn ended_as(core: &Core) -> Status
    ensures { result ≡ status_by (end_of_run core.now) }
{
    match core.ended() {
        Some(end) => Status::of_end(&end),
        None => Status::Done,
    }
}
