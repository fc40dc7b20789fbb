//! Small histories, that several tests report or audit.
ghost use Rattle.std.specs.Prelude.{◌≡◌, []};

use aps_model::{Entry, History, Nanos};
use aps_scenario::scenario_of;
use std::alloc::Global;
use std::process::Abort;

/// How many entries a history has room for.
const ROOM: usize = 5000;

/// The longest time of an entry, and the last moment of one (ns).
const LONGEST: Nanos = 10_000_000;

const LAST: Nanos = 20_000_000;

/// The history of the scenario that this text is, at its start.
pub fn begun(rt: &impl Abort, alloc: Global, text: &str) -> History
    ensures changes { result.changes ≡ [] }
    ensures replies { result.replies ≡ [] }
    ensures room { result.room ≡ record { entries = 5000; replies = 32; changes = 8 } }
{
    let scenario = scenario_of(alloc, text.as_bytes()).expect(rt, "a scenario");
    History::begin(alloc, scenario, ROOM as u32, 32, 8).expect(rt, "memory")
}

/// Adds an entry.
fn add(rt: &impl Abort, history: &mut History, e: &Entry)
    requires { history.old.room.entries ≡ 5000 }
    ensures { history.new ≡ record history.old { entries = history.new.entries } }
{
    assert!(rt; history.entries().len() < ROOM);
    assert!(rt; e.from <= e.to && e.to <= LAST);
    assert!(rt; e.to - e.from <= LONGEST);
    history.add_entry(*e);
}

/// Adds these entries.
pub fn add_all(rt: &impl Abort, history: &mut History, entries: &[Entry])
    requires { history.old.room.entries ≡ 5000 }
    ensures { history.new ≡ record history.old { entries = history.new.entries } }
{
    for e in entries {
        add(rt, history, e);
    }
}
