//! A scene, made by a core that makes the steps of a history again up to a moment.
ghost use Rattle.std.specs.Prelude.{◌≡◌, ◌≤◌, [], All, length, take, IfOk, OnOk};
ghost use Rattle.aps_model.specs.History.{IsEntry};
ghost use Rattle.aps_model.specs.Legal.{IsLegal};
ghost use Rattle.aps_model.specs.Valid.{IsScenario};
ghost use Rattle.laws_runs.specs.Moments.{moment};
ghost use Rattle.aps_core.specs.Run.{state_of_run};
ghost use Rattle.view_lives.specs.Whole.{until};
ghost use Rattle.view_explain.specs.Past.{past_at};
ghost use Rattle.view_explain.specs.Ties.{ties_of};
ghost use Rattle.aps_model.specs.Limits.{last_moment, most_entries};

use crate::scene::Scene;
use crate::ties::Ties;
use aps_core::Core;
use aps_model::{Entry, History, Nanos, NoMemory, Order};
use std::alloc::Global;
use view_replay::{boot, retrace};

/// A history that is legal in this order of turns, as it stood after the entries that end at this moment (ns) or earlier.
/// `NoMemory` comes where memory runs out.
pub fn scene_at(
    alloc: Global,
    history: &History,
    order: Order,
    at: Nanos,
) -> Result<Scene, NoMemory>
    requires legal { IsLegal history.now.scenario order history.now.entries }
    requires few { length history.now.entries ≤ most_entries }
    ensures { IfOk result (λ scene. scene ≡ past_at history.now.scenario history.now.entries at) }
{
    let entries = history.entries();
    let count = ended_by(entries, at);
    let ties = Ties::new(alloc, history.scenario().channels().len())?;
    let core = boot(alloc, history, order)?;
    scene_of(alloc, core, ties, &entries[..count])
}

/// The scene of a core that has made no step, after the steps of these entries.
fn scene_of(
    alloc: Global,
    mut core: Core,
    mut ties: Ties,
    entries: &[Entry],
) -> Result<Scene, NoMemory>
    requires valid { IsScenario core.setup.scenario }
    requires begins { core.entries ≡ [] }
    requires tied { ties ≡ ties_of (state_of_run core) }
    requires entries { All IsEntry entries.now }
    requires legal { IsLegal core.setup.scenario core.setup.order entries.now }
    requires few { length entries.now ≤ core.setup.limit }
    requires short { length entries.now ≤ most_entries }
    ensures { IfOk result (λ scene. scene ≡ record { scenario = core.setup.scenario; entries = entries.now }) }
{
    let last = go_through(&mut core, &mut ties, entries)?;
    Scene::of(alloc, core, ties, last)
}

/// How many of these entries come before the first that ends later than a moment.
fn ended_by(entries: &[Entry], at: Nanos) -> usize
    ensures same { until at entries.now ≡ take result entries.now }
    ensures within { result ≤ length entries.now }
{
    let mut count = 0;
    while count < entries.len() && entries[count].to <= at {
        count += 1;
    }
    count
}

/// The core, which has made no step, makes those of these entries, and the ties go along. The answer is where the last one ends,
/// or 0.
fn go_through(core: &mut Core, ties: &mut Ties, entries: &[Entry]) -> Result<Nanos, NoMemory>
    requires valid { IsScenario core.old.setup.scenario }
    requires begins { core.old.entries ≡ [] }
    requires tied { ties.old ≡ ties_of (state_of_run core.old) }
    requires entries { All IsEntry entries.now }
    requires legal { IsLegal core.old.setup.scenario core.old.setup.order entries.now }
    requires few { length entries.now ≤ core.old.setup.limit }
    ensures run { OnOk result (core.new ≡ record core.old { entries = entries.now }) }
    ensures tied { OnOk result (ties.new ≡ ties_of (state_of_run core.new)) }
    ensures last { IfOk result (λ last. last ≡ moment entries.now) }
    ensures early { IfOk result (λ last. last ≤ last_moment) }
{
    let mut last = 0;
    for e in entries {
        ties.go_on(core, e)?;
        retrace(core, e);
        last = e.to;
    }
    Ok(last)
}
