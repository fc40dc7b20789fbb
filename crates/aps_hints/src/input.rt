//! What a person is told of a refused input.
ghost use Rattle.std.specs.Prelude.{◌≡◌, true, IfOk};
ghost use Rattle.aps_hints.specs.Refused.{HintsAt, refusal_in};

use crate::line::Line;
use crate::names::{Named, push_names};
use crate::refused::refusal_hint;
use crate::spot::Document;
use crate::value::push_quoted;
use aps_model::NoMemory;
use aps_model::limits::MOST_JOURNAL_BYTES;
use aps_text::{JournalRefusal, journal_at, read_journal};
use std::alloc::{AllocError, Global};

/// What a source gave: its first bytes, and whether these are all.
#[derive(Clone, Copy)]
pub struct Given<'a> {
    pub bytes: &'a [u8],
    pub is_whole: bool,
}

/// What is told of an input that is a scenario, or demands, as a whole; nothing where only a part of it was kept.
pub fn whole_hint(
    alloc: Global,
    given: Given<'_>,
    document: Document,
) -> Result<Option<Line>, NoMemory>
    ensures { given.entry.is_whole ≡ true → IfOk result (HintsAt given.entry.bytes.now (refusal_in document given.entry.bytes.now)) }
{
    if !given.is_whole {
        return Ok(None);
    }
    refusal_hint(alloc, given.bytes, document)
}

/// What is told of an input that `check` refused: a scenario and its journal.
pub fn check_hint(alloc: Global, given: Given<'_>) -> Result<Option<Line>, NoMemory> {
    let Some((scenario, _)) = parts_of(given.bytes) else {
        return separator_hint(alloc, given.is_whole);
    };
    match refusal_hint(alloc, scenario, Document::Scenario)? {
        Some(line) => Ok(Some(line)),
        None => journal_hint(alloc),
    }
}

/// What is told of an input that `apsview` refused: a scenario, or a scenario and its journal. `thread` is the name of the
/// thread that was asked for, if one was.
pub fn view_hint(
    alloc: Global,
    given: Given<'_>,
    thread: Option<&str>,
) -> Result<Option<Line>, NoMemory> {
    match parts_of(given.bytes) {
        Some((scenario, journal)) => viewed_hint(alloc, scenario, Some(journal), thread),
        None if given.is_whole => viewed_hint(alloc, given.bytes, None, thread),
        None => Ok(None),
    }
}

/// The same by the scenario and the journal, if there is one.
fn viewed_hint(
    alloc: Global,
    scenario: &[u8],
    journal: Option<&[u8]>,
    thread: Option<&str>,
) -> Result<Option<Line>, NoMemory> {
    if let Some(line) = refusal_hint(alloc, scenario, Document::Scenario)? {
        return Ok(Some(line));
    }
    match journal {
        Some(journal) if !is_journal(alloc, journal)? => journal_hint(alloc),
        _ => asked_hint(alloc, scenario, thread),
    }
}

/// The scenario and the journal of these bytes, if the line between them is there.
fn parts_of(bytes: &[u8]) -> Option<(&[u8], &[u8])> {
    let at = journal_at(bytes)?;
    let scenario = bytes.get(..at.scenario_len)?;
    let journal = bytes.get(at.journal_from..)?;
    Some((scenario, journal))
}

/// What is told of an input without the line that parts a scenario from its journal.
fn separator_hint(alloc: Global, is_whole: bool) -> Result<Option<Line>, NoMemory> {
    if !is_whole {
        return Ok(None);
    }
    let mut line = Line::new(alloc);
    line.push_text(
        b"the line --- journal is missing; it stands between a scenario and its journal",
    )?;
    Ok(Some(line))
}

/// What is told of a journal that is none.
fn journal_hint(alloc: Global) -> Result<Option<Line>, NoMemory> {
    let mut line = Line::new(alloc);
    line.push_text(
        b"a line of a journal is CPU FROM TO RAN BILLED CRITICAL DONE PICKED STARVED FLAGGED",
    )?;
    Ok(Some(line))
}

/// Whether these bytes are a journal.
fn is_journal(alloc: Global, journal: &[u8]) -> Result<bool, NoMemory> {
    if journal.len() > MOST_JOURNAL_BYTES {
        return Ok(false);
    }
    match read_journal(alloc, journal) {
        Ok(_) => Ok(true),
        Err(JournalRefusal::BadLine { .. }) => Ok(false),
        Err(JournalRefusal::NoMemory) => Err(AllocError),
    }
}

/// What is told of a thread that was asked for, where the scenario has none of this name.
fn asked_hint(
    alloc: Global,
    scenario: &[u8],
    thread: Option<&str>,
) -> Result<Option<Line>, NoMemory> {
    let Some(name) = thread else {
        return Ok(None);
    };
    let top = match toml::table_from_slice(alloc, scenario) {
        Ok(top) => top,
        Err(error) if error.is_memory() => return Err(AllocError),
        Err(_) => return Ok(None),
    };
    let mut line = Line::new(alloc);
    line.push_text(b"--thread: ")?;
    push_quoted(&mut line, name.as_bytes())?;
    line.push_text(b" names nothing; ")?;
    push_names(alloc, &mut line, &top, Named::Threads)?;
    Ok(Some(line))
}
