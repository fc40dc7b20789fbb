//! The run of the scenario that a source gives, from its beginning to its end.
ghost use Rattle.std.specs.Prelude.{◌≡◌, ◌≤◌};
ghost use Rattle.aps_calls.specs.Intake.{intake_of};
ghost use Rattle.aps_top.specs.Reading.{BeginsIn};
ghost use Rattle.aps_top.specs.Run.{IsRun};
ghost use Rattle.aps_model.specs.Limits.{most_entries};

use crate::reading::read_scenario;
use aps_calls::failure::Failure;
use aps_core::Core;
use aps_io::Source;
use aps_model::{End, History, Order};
use std::alloc::Global;

/// Reads the source, and begins a run of the scenario that it gives. Where there is none, the answer says
/// why.
pub fn begin<S: Source>(
    alloc: Global,
    order: Order,
    limit: u32,
    source: &mut S,
) -> Result<Core, Failure>
    requires some { 1 ≤ limit }
    requires few { limit ≤ most_entries }
    ensures { BeginsIn (intake_of (S.left source.old) (S.left source.new) (S.faults source.old) (S.faults source.new)) order limit result }
{
    let scenario = match read_scenario(alloc, source) {
        Ok(scenario) => scenario,
        Err(failure) => return Err(failure),
    };
    match Core::boot(alloc, scenario, order, limit) {
        Ok(core) => Ok(core),
        Err(_) => Err(Failure::NoMemory),
    }
}

/// Runs to the end by steps of the lowest processor that has the turn, and gives that end and what was recorded.
pub fn run_to_end(mut core: Core) -> (End, History)
    ensures scenario { result.1.scenario ≡ core.setup.scenario }
    ensures run { IsRun core.setup.order core.setup.limit result.0 result.1 }
{
    let end = core.finish();
    (end, core.into_history())
}
