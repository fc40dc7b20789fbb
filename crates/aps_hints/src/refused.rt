//! The hint on bytes that are no scenario, or no demands.
ghost use Rattle.std.specs.Prelude.{IfOk};
ghost use Rattle.aps_scenario.specs.Reading.{reads};
ghost use Rattle.aps_scenario.specs.Demands.{reads_demands};
ghost use Rattle.aps_hints.specs.Refused.{HintsAt, IsRefusedAs, IsRefusal, refusal_in, refusal_told};

use crate::line::Line;
use crate::scenario::scenario_hint;
use crate::spot::Document;
use aps_model::NoMemory;
use aps_scenario::{Kind, PathText, ScenarioRefusal, demands_of, scenario_of};
use std::alloc::{AllocError, Global};

/// What is wrong with a text, and where.
#[derive(Clone, Copy)]
pub struct Finding {
    pub kind: Kind,
    pub path: PathText,
}

/// What a person is told of these bytes, where they are refused as such a document; nothing where they are one.
pub fn refusal_hint(
    alloc: Global,
    bytes: &[u8],
    document: Document,
) -> Result<Option<Line>, NoMemory>
    ensures { IfOk result (HintsAt bytes.now (refusal_in document bytes.now)) }
{
    match refused_as(alloc, bytes, document)? {
        Some(refused) => {
            let line = scenario_hint(alloc, bytes, document, refused.kind, &refused.path)?;
            Ok(Some(line))
        }
        None => Ok(None),
    }
}

/// Why these bytes are refused as such a document, if they are.
fn refused_as(alloc: Global, bytes: &[u8], document: Document) -> Result<Option<Finding>, NoMemory>
    ensures { IfOk result (IsRefusedAs (refusal_in document bytes.now)) }
{
    match document {
        Document::Scenario => scenario_refused(alloc, bytes),
        Document::Demands => demands_refused(alloc, bytes),
    }
}

fn scenario_refused(alloc: Global, bytes: &[u8]) -> Result<Option<Finding>, NoMemory>
    ensures { IfOk result (IsRefusedAs (refusal_told (reads bytes.now))) }
{
    let read = scenario_of(alloc, bytes);
    match &read {
        Ok(_) => Ok(None),
        Err(refusal) => finding_of(*refusal),
    }
}

fn demands_refused(alloc: Global, bytes: &[u8]) -> Result<Option<Finding>, NoMemory>
    ensures { IfOk result (IsRefusedAs (refusal_told (reads_demands bytes.now))) }
{
    let read = demands_of(alloc, bytes);
    match &read {
        Ok(_) => Ok(None),
        Err(refusal) => finding_of(*refusal),
    }
}

/// What a refusal says of the text.
fn finding_of(refusal: ScenarioRefusal) -> Result<Option<Finding>, NoMemory>
    ensures { IfOk result (IsRefusal refusal) }
{
    match refusal {
        ScenarioRefusal::Refused { kind, path } => Ok(Some(Finding { kind, path })),
        ScenarioRefusal::NoMemory => Err(AllocError),
    }
}
