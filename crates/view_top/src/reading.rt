//! What comes of the input: a scenario, or a scenario with a journal.
ghost use Rattle.std.specs.Prelude.{◌≤◌, length, Some};
ghost use Rattle.aps_scenario.specs.Reading.{reads};
ghost use Rattle.aps_calls.specs.Intake.{intake_of};
ghost use Rattle.view_top.specs.Cause.{IsViewOutcome, TellsDue};
ghost use Rattle.view_top.specs.Due.{IsDueAlone, IsDueOfInput, IsDueOfJournal, IsDueOfRead, IsDueOfScenario};
ghost use Rattle.aps_model.specs.Limits.{most_entries, most_journal_bytes};

use crate::outcome::Outcome;
use crate::running::ran;
use crate::viewing::judged;
use aps_calls::failure::Failure;
use aps_calls::parts::parted;
use aps_io::{Source, read_all};
use aps_model::Scenario;
use aps_model::limits::{MOST_JOURNAL_BYTES, MOST_SCENARIO_BYTES};
use aps_scenario::scenario_of;
use aps_text::read_journal;
use std::alloc::Global;
use view_words::Asked;

/// Reads the source, and makes the report that was asked for of what its bytes are.
pub fn outcome_of<S: Source>(alloc: Global, asked: Asked, source: &mut S) -> Outcome
    requires some { 1 ≤ asked.limit }
    requires few { asked.limit ≤ most_entries }
    ensures { IsViewOutcome (Some asked)
        (intake_of (S.left source.old) (S.left source.new) (S.faults source.old) (S.faults source.new)) result }
{
    match read_all(alloc, source, MOST_JOURNAL_BYTES) {
        Ok(bytes) => of_bytes(alloc, asked, &bytes),
        Err(refusal) => Outcome::Failed(Failure::not_read(refusal)),
    }
}

/// What comes of these bytes: with a line `--- journal` they are a scenario and a journal, without one a scenario.
fn of_bytes(alloc: Global, asked: Asked, bytes: &[u8]) -> Outcome
    requires some { 1 ≤ asked.limit }
    requires few { asked.limit ≤ most_entries }
    requires short { length bytes.now ≤ most_journal_bytes }
    ensures { TellsDue (IsDueOfInput asked bytes.now) result }
{
    match parted(bytes) {
        Some(at) => {
            let scenario = &bytes[..at.scenario_len];
            let journal = &bytes[at.journal_from..];
            of_parts(alloc, asked, scenario, journal)
        }
        None => of_scenario(alloc, asked, bytes),
    }
}

/// What comes of a scenario alone.
fn of_scenario(alloc: Global, asked: Asked, text: &[u8]) -> Outcome
    requires some { 1 ≤ asked.limit }
    requires few { asked.limit ≤ most_entries }
    ensures { TellsDue (IsDueAlone asked text.now) result }
{
    if text.len() > MOST_SCENARIO_BYTES {
        Outcome::Failed(Failure::TooLong)
    } else {
        of_short(alloc, asked, text)
    }
}

/// What comes of a scenario alone that isn't too long.
fn of_short(alloc: Global, asked: Asked, text: &[u8]) -> Outcome
    requires some { 1 ≤ asked.limit }
    requires few { asked.limit ≤ most_entries }
    ensures { TellsDue (IsDueOfScenario asked (reads text.now)) result }
{
    match scenario_of(alloc, text) {
        Ok(scenario) => match ran(alloc, asked, scenario) {
            Ok(outcome) => outcome,
            Err(_) => Outcome::Failed(Failure::NoMemory),
        },
        Err(refusal) => Outcome::Failed(Failure::of_refusal(&refusal)),
    }
}

/// What comes of a scenario and what stands behind the line `--- journal`.
fn of_parts(alloc: Global, asked: Asked, text: &[u8], journal: &[u8]) -> Outcome
    requires some { 1 ≤ asked.limit }
    requires few { asked.limit ≤ most_entries }
    requires short { length journal.now ≤ most_journal_bytes }
    ensures { TellsDue (IsDueOfRead asked (reads text.now) journal.now) result }
{
    match scenario_of(alloc, text) {
        Ok(scenario) => of_journal(alloc, asked, scenario, journal),
        Err(refusal) => Outcome::Failed(Failure::of_refusal(&refusal)),
    }
}

/// What comes of a scenario with what may be its journal.
fn of_journal(alloc: Global, asked: Asked, scenario: Scenario, journal: &[u8]) -> Outcome
    requires some { 1 ≤ asked.limit }
    requires few { asked.limit ≤ most_entries }
    requires short { length journal.now ≤ most_journal_bytes }
    ensures { TellsDue (IsDueOfJournal asked scenario journal.now) result }
{
    match read_journal(alloc, journal) {
        Ok(entries) => match judged(alloc, asked, scenario, &entries) {
            Ok(outcome) => outcome,
            Err(_) => Outcome::Failed(Failure::NoMemory),
        },
        Err(refusal) => Outcome::Failed(Failure::of_journal_refusal(refusal)),
    }
}
