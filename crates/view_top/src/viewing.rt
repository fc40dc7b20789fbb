//! What comes of what a core has recorded, and of a scenario with the entries of a journal.
ghost use Rattle.std.specs.Prelude.{◌≡◌, ℕ, ◌≤◌, List, Option, option_map, string_bytes, IfOk};
ghost use Rattle.aps_check.specs.Verdict.{IsRunSoFar};
ghost use Rattle.aps_calls.specs.declared.status.Status.TheVariants.{Done};
ghost use Rattle.view_top.specs.Cause.{told_by};
ghost use Rattle.view_top.specs.Due.{IsDueOfEntries, IsReported, judging, reported};
ghost use Rattle.view_top.specs.Report.{IsReport};
ghost use Rattle.aps_model.specs.Limits.{most_entries};

use crate::outcome::Outcome;
use crate::refusal::refusal_of;
use crate::report::{report_of, trace_of};
use crate::traced::Traced;
use aps_calls::failure::Failure;
use aps_calls::status::Status;
use aps_check::{Verdict, check};
use aps_core::Core;
use aps_model::{Entry, NoMemory, Order, Scenario};
use std::alloc::Global;
use view_replay::retrace_rest;
use view_words::{Asked, Report};

/// What comes of what the core has recorded, under this status.
pub fn told(alloc: Global, report: Report, core: Core, status: Status) -> Result<Outcome, NoMemory>
    requires few { core.setup.limit ≤ most_entries }
    ensures { IfOk result (λ outcome. IsReported report core.setup.scenario core.entries status (told_by outcome)) }
{
    // the check wants a copy for each call
    let same = report;
    match trace_of(report) {
        Some(trace) => Ok(Outcome::Traced(Traced::of(status, trace, core))),
        None => told_as_text(alloc, same, core, status),
    }
}

/// The same, of a report that is a text.
fn told_as_text(
    alloc: Global,
    report: Report,
    core: Core,
    status: Status,
) -> Result<Outcome, NoMemory>
    requires few { core.setup.limit ≤ most_entries }
    ensures { IfOk result (λ outcome. (text : Option (List ℕ)) × IsReport report core.setup.scenario core.entries text
        × (told_by outcome ≡ reported report status text)) }
{
    // the check wants a copy for each call
    let same = report;
    let text = report_of(alloc, report, &core)?;
    Ok(of_text(same, status, text))
}

/// What comes of a history with this text of the report, under this status.
pub fn of_text(report: Report, status: Status, text: Option<String>) -> Outcome
    ensures { told_by result ≡ reported report status (option_map string_bytes text) }
{
    match text {
        Some(text) => Outcome::Reported { status, text },
        None => Outcome::Failed(Failure::InputRefused(refusal_of(report))),
    }
}

/// Judges the entries of a journal in free order, and makes the report that was asked for where they are legal.
pub fn judged(
    alloc: Global,
    asked: Asked,
    scenario: Scenario,
    entries: &[Entry],
) -> Result<Outcome, NoMemory>
    requires some { 1 ≤ asked.limit }
    requires few { asked.limit ≤ most_entries }
    ensures { IfOk result (λ outcome. IsDueOfEntries asked scenario entries.now (told_by outcome)) }
{
    let verdict = check(alloc, &scenario, Order::Free, asked.limit, entries)?;
    match verdict {
        Verdict::Legal { .. } => viewed(alloc, asked, scenario, entries),
        Verdict::Breaks { .. } => Ok(Outcome::Broken { verdict }),
    }
}

/// Makes the report that was asked for, of entries that are legal in free order.
fn viewed(
    alloc: Global,
    asked: Asked,
    scenario: Scenario,
    entries: &[Entry],
) -> Result<Outcome, NoMemory>
    requires some { 1 ≤ asked.limit }
    requires few { asked.limit ≤ most_entries }
    requires sound { IsRunSoFar (judging asked scenario) entries.now }
    ensures { IfOk result (λ outcome. IsReported asked.report scenario entries.now Done (told_by outcome)) }
{
    let mut core = Core::boot(alloc, scenario, Order::Free, asked.limit)?;
    retrace_rest(&mut core, entries, 0);
    told(alloc, asked.report, core, Status::Done)
}
