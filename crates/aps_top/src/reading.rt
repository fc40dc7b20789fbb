//! What a source gives: a scenario, demands, or the verdict on a journal; or why it gives none.
ghost use Rattle.std.specs.Prelude.{◌≤◌, length};
ghost use Rattle.aps_model.specs.Limits.{most_entries, most_journal_bytes};
ghost use Rattle.aps_calls.specs.Intake.{intake_of};
ghost use Rattle.aps_top.specs.CheckInput.{check_refusal};
ghost use Rattle.aps_top.specs.Reading.{GivesScenario, GivesDemands, GivesText, GivesVerdict, IsScenarioText, IsDemandsText, IsJudgedText};
ghost use Rattle.aps_top.specs.Refusal.{scenario_refusal, demands_refusal};

use aps_calls::failure::Failure;
use aps_calls::parts::parted;
use aps_calls::refusal::InputRefusal;
use aps_check::{Verdict, check_text};
use aps_io::{Source, read_all};
use aps_model::limits::{MOST_JOURNAL_BYTES, MOST_SCENARIO_BYTES};
use aps_model::{Order, Scenario};
use aps_scenario::{Demands, demands_of, scenario_of};
use std::alloc::Global;

/// Reads the source, and gives the scenario that its bytes are.
pub fn read_scenario<S: Source>(alloc: Global, source: &mut S) -> Result<Scenario, Failure>
    ensures { GivesScenario (intake_of (S.left source.old) (S.left source.new) (S.faults source.old) (S.faults source.new)) result }
{
    match read_all(alloc, source, MOST_SCENARIO_BYTES) {
        Ok(bytes) => scenario_in(alloc, &bytes),
        Err(refusal) => Err(Failure::not_read(refusal)),
    }
}

/// Reads the source, and gives the demands that its bytes are.
pub fn read_demands<S: Source>(alloc: Global, source: &mut S) -> Result<Demands, Failure>
    ensures { GivesDemands (intake_of (S.left source.old) (S.left source.new) (S.faults source.old) (S.faults source.new)) result }
{
    match read_all(alloc, source, MOST_SCENARIO_BYTES) {
        Ok(bytes) => demands_in(alloc, &bytes),
        Err(refusal) => Err(Failure::not_read(refusal)),
    }
}

/// Reads the source, and judges the journal that its bytes have behind their scenario.
pub fn read_verdict<S: Source>(
    alloc: Global,
    order: Order,
    limit: u32,
    source: &mut S,
) -> Result<Verdict, Failure>
    requires some { 1 ≤ limit }
    requires few { limit ≤ most_entries }
    ensures { GivesVerdict order limit
        (intake_of (S.left source.old) (S.left source.new) (S.faults source.old) (S.faults source.new)) result }
{
    match read_all(alloc, source, MOST_JOURNAL_BYTES) {
        Ok(bytes) => verdict_in(alloc, order, limit, &bytes),
        Err(refusal) => Err(Failure::not_read(refusal)),
    }
}

/// The scenario that these bytes are, if they are one.
fn scenario_in(alloc: Global, bytes: &[u8]) -> Result<Scenario, Failure>
    ensures { GivesText (scenario_refusal bytes.now) (IsScenarioText bytes.now) result }
{
    match scenario_of(alloc, bytes) {
        Ok(scenario) => Ok(scenario),
        Err(refusal) => Err(Failure::of_refusal(&refusal)),
    }
}

/// The demands that these bytes are, if they are any.
fn demands_in(alloc: Global, bytes: &[u8]) -> Result<Demands, Failure>
    ensures { GivesText (demands_refusal bytes.now) (IsDemandsText bytes.now) result }
{
    match demands_of(alloc, bytes) {
        Ok(demands) => Ok(demands),
        Err(refusal) => Err(Failure::of_refusal(&refusal)),
    }
}

/// The verdict on the journal that these bytes have behind a scenario: they are separated by the line `--- journal`.
fn verdict_in(alloc: Global, order: Order, limit: u32, bytes: &[u8]) -> Result<Verdict, Failure>
    requires some { 1 ≤ limit }
    requires few { limit ≤ most_entries }
    requires short { length bytes.now ≤ most_journal_bytes }
    ensures { GivesText (check_refusal bytes.now) (IsJudgedText order limit bytes.now) result }
{
    let Some(at) = parted(bytes) else {
        return Err(Failure::InputRefused(InputRefusal::NoJournal));
    };
    let scenario = match scenario_of(alloc, &bytes[..at.scenario_len]) {
        Ok(scenario) => scenario,
        Err(refusal) => return Err(Failure::of_refusal(&refusal)),
    };
    match check_text(alloc, &scenario, order, limit, &bytes[at.journal_from..]) {
        Ok(verdict) => Ok(verdict),
        Err(refusal) => Err(Failure::of_journal_refusal(refusal)),
    }
}
