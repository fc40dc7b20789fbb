//! The report of a history.
ghost use Rattle.std.specs.Prelude.{◌≡◌, ◌≤◌, length, option_map, string_bytes, IfOk};
ghost use Rattle.aps_model.specs.Legal.{IsLegal};
ghost use Rattle.laws_runs.specs.Moments.{moment};
ghost use Rattle.view_top.specs.Report as spec;
ghost use Rattle.view_top.specs.Report.{IsReport};
ghost use Rattle.aps_model.specs.Limits.{most_entries};

use crate::drawing::drawn;
use crate::naming::thread_named;
use aps_core::Core;
use aps_model::{Entry, History, Name, Nanos, NoMemory, Order};
use std::alloc::Global;
use view_explain::explain_text;
use view_latency::latency_text;
use view_lives::text::cycles_text;
use view_samples::table;
use view_samples::table::csv;
use view_shares::shares_text;
use view_words::{Picture, Report, Ticks, Trace};

/// The trace that the report is, if it is one.
pub fn trace_of(report: Report) -> Option<Trace>
    ensures { result ≡ spec.trace_of report }
{
    match report {
        Report::Trace { trace } => Some(trace),
        _ => None,
    }
}

/// This report of what the core has recorded, or none where it is asked for a thread that the scenario hasn't, for a picture that
/// would begin behind the end, or for a trace.
pub fn report_of(alloc: Global, report: Report, core: &Core) -> Result<Option<String>, NoMemory>
    requires few { core.now.setup.limit ≤ most_entries }
    ensures { IfOk result (λ text. IsReport report core.now.setup.scenario core.now.entries (option_map string_bytes text)) }
{
    let history = core.history();
    let order = core.order();
    // the check wants to see here that the entries are no more than there is room for
    let _entries = history.entries();
    match report {
        Report::Cycles => Ok(Some(cycles_text(alloc, history, order)?)),
        Report::Csv { ticks } => Ok(Some(csv(alloc, history, order, told(ticks))?)),
        Report::Shares => Ok(Some(shares_text(alloc, history, order)?)),
        Report::Picture { picture, ticks } => pictured(alloc, history, order, picture, ticks),
        Report::Trace { .. } => Ok(None),
        Report::Latency => Ok(Some(latency_text(alloc, history, order)?)),
        Report::Explain { thread, at } => explained(alloc, history, order, thread, at),
    }
}

/// These ticks, for the table of samples.
fn told(ticks: Ticks) -> table::Ticks
    ensures { result ≡ spec.told ticks }
{
    table::Ticks {
        from: ticks.from,
        to: ticks.to,
    }
}

/// The picture of these ticks; none where it would begin behind the end of the history, or at it.
fn pictured(
    alloc: Global,
    history: &History,
    order: Order,
    picture: Picture,
    ticks: Ticks,
) -> Result<Option<String>, NoMemory>
    requires legal { IsLegal history.now.scenario order history.now.entries }
    requires few { length history.now.entries ≤ most_entries }
    ensures { IfOk result (λ text. spec.IsDrawn (spec.is_behind history.now.scenario history.now.entries ticks)
        (option_map string_bytes text)) }
{
    if is_behind(history, ticks) {
        return Ok(None);
    }
    Ok(Some(drawn(alloc, history, order, picture, told(ticks))?))
}

/// Whether a picture of these ticks would begin behind the end of the history, or at it.
fn is_behind(history: &History, ticks: Ticks) -> bool
    ensures { result ≡ spec.is_behind history.now.scenario history.now.entries ticks }
{
    let begin = u64::from(ticks.from) * history.scenario().shape().tick;
    ticks.from > 0 && end_of(history.entries()) <= begin
}

/// When the last of these entries ends (ns); 0 where there is none.
fn end_of(entries: &[Entry]) -> Nanos
    ensures { result ≡ moment entries.now }
{
    match entries.last() {
        Some(e) => e.to,
        None => 0,
    }
}

/// Why the thread of this name runs at a moment (ns), or doesn't; none where the scenario has no thread of that name.
fn explained(
    alloc: Global,
    history: &History,
    order: Order,
    thread: Option<Name>,
    at: Nanos,
) -> Result<Option<String>, NoMemory>
    requires legal { IsLegal history.now.scenario order history.now.entries }
    requires few { length history.now.entries ≤ most_entries }
    ensures { IfOk result (λ text. option_map string_bytes text ≡ spec.explained history.now.scenario history.now.entries thread at) }
{
    match thread_named(history.scenario().threads(), thread) {
        Some(x) => Ok(Some(explain_text(alloc, history, order, x, at)?)),
        None => Ok(None),
    }
}
