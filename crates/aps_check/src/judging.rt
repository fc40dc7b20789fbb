//! A journal judged entry by entry, beside a core that makes the steps.
ghost use Rattle.std.specs.Prelude.{◌≡◌, ◌≤◌, ◌++◌, IfOk, MatchOption};
ghost use Rattle.aps_core.specs.Turn.{IsTurnTaken, with_entry};
ghost use Rattle.aps_check.specs.Breach.{IsBreach};
ghost use Rattle.aps_check.specs.Following.{run_begun};
ghost use Rattle.aps_check.specs.Verdict.{IsVerdict};
ghost use Rattle.aps_model.specs.Limits.{most_entries};

use crate::difference::first_difference;
use crate::verdict::{Rule, Verdict};
use aps_core::{Core, Turn};
use aps_model::{Entry, NoMemory, Order, Scenario};
use std::alloc::Global;

/// The verdict on a journal of the scenario, by the order in which processors may take their turns, and the greatest
/// number of entries, 1 to 4,000,000. It says that the journal is legal exactly where each entry is the step of a
/// processor that had the turn, made before the run had ended; else it names the first entry that isn't, and why. Of
/// several reasons it is the first of these: the run had ended; the processor doesn't exist or hasn't the turn; a field
/// differs from the step of the processor, the first in the order of a journal's line.
///
/// The journal may be of any length. `NoMemory` comes where memory runs out, and tells nothing of the journal.
pub fn check(
    alloc: Global,
    scenario: &Scenario,
    order: Order,
    limit: u32,
    journal: &[Entry],
) -> Result<Verdict, NoMemory>
    requires some { 1 ≤ limit }
    requires few { limit ≤ most_entries }
    ensures { IfOk result (IsVerdict (record { scenario = scenario.now; order = order; limit = limit }) journal.now) }
{
    let mut core = boot(alloc, scenario, order, limit)?;
    Ok(judge(&mut core, journal))
}

/// A run of the scenario that has no entries yet.
pub fn boot(alloc: Global, scenario: &Scenario, order: Order, limit: u32) -> Result<Core, NoMemory>
    requires some { 1 ≤ limit }
    requires few { limit ≤ most_entries }
    ensures { IfOk result (λ core. core ≡ run_begun (record { scenario = scenario.now; order = order; limit = limit })) }
{
    Core::boot(alloc, scenario.copy(alloc)?, order, limit)
}

/// The verdict on the journal of the core's entries and these behind them.
pub fn judge(core: &mut Core, entries: &[Entry]) -> Verdict
    ensures { IsVerdict core.old.setup (core.old.entries ++ entries.now) result }
{
    for entry in entries {
        if let Some(breach) = breach_of(core, entry) {
            return Verdict::Breaks {
                entry: breach.place,
                rule: breach.rule,
                expected: breach.expected,
            };
        }
    }
    Verdict::Legal {
        end: core.history().end(),
    }
}

/// What the entry behind the first `place` entries breaks, and the entry of the step that its processor makes there.
#[derive(Drop)]
struct Breach {
    place: u32,
    rule: Rule,
    expected: Option<Entry>,
}

/// What this entry breaks behind those of the core, if anything. The core steps where the entry's processor has the turn:
/// where the entry breaks nothing, the core has it as its last one.
fn breach_of(core: &mut Core, entry: &Entry) -> Option<Breach>
    ensures { MatchOption result (IsTurnTaken core.old entry.now.cpu entry.now × (core.new ≡ with_entry core.old entry.now))
        (λ breach. IsBreach core.old entry.now breach) }
{
    let history = core.history();
    let place = history.entries().len() as u32;
    let cpus = history.scenario().shape().cpus;
    if history.end().is_some() {
        return Some(Breach {
            place,
            rule: Rule::After,
            expected: None,
        });
    }
    if entry.cpu.index() >= usize::from(cpus) {
        return Some(Breach {
            place,
            rule: Rule::Turn,
            expected: None,
        });
    }
    match core.step(entry.cpu) {
        Turn::Took(step) => {
            let rule = first_difference(entry, &step)?;
            Some(Breach {
                place,
                rule,
                expected: Some(step),
            })
        }
        Turn::NotYet { .. } => Some(Breach {
            place,
            rule: Rule::Turn,
            expected: None,
        }),
        Turn::Ended(_) => unreachable!(),
    }
}
