//! The steps of a recorded history, made again one after the other, with what the partitions used in the window.
ghost use Rattle.std.specs.Prelude.{◌≡◌, ◌<◌, ◌≤◌, ◌++◌, [], ◌∷◌, IfOk, length};
ghost use Rattle.aps_model.specs.Legal.{IsLegal};
ghost use Rattle.aps_core.specs.Turn.{with_entry};
ghost use Rattle.view_replay.specs.Retraced.{order_of_run, scenario_of_run, start_of};
ghost use Rattle.view_value_changes.specs.Retraced.{RetracedFollowsCore};
ghost use Rattle.aps_model.specs.Limits.{most_entries};

use aps_core::Core;
use aps_model::{Entry, History, Nanos, NoMemory, Order};
use std::alloc::Global;
use view_replay::{boot, retrace};
use view_shares::Usages;

/// A core that has made the steps of so many entries again, when the last of them ended (ns; 0 where there is none), and what
/// they bill.
#[derive(Drop)]
pub struct Retraced {
    pub core: Core,
    pub moment: Nanos,
    pub usages: Usages,
}

impl Retraced {
    /// No step was made yet. `NoMemory` comes where memory runs out.
    pub fn begin(alloc: Global, history: &History, order: Order) -> Result<Retraced, NoMemory>
        requires { length history.now.entries ≤ most_entries }
        ensures at { IfOk result RetracedFollowsCore }
        ensures core { IfOk result (λ retraced. retraced.core ≡ start_of history.now order) }
    {
        let window = history.scenario().shape().window;
        let core = boot(alloc, history, order)?;
        let usages = Usages::new(alloc, window)?;
        Ok(Retraced {
            core,
            moment: 0,
            usages,
        })
    }

    /// Makes the step of the next entry.
    pub fn go_on(&mut self, e: &Entry)
        requires at { RetracedFollowsCore self.old }
        requires legal { IsLegal (scenario_of_run self.old.core) (order_of_run self.old.core) (self.old.core.entries ++ e.now ∷ []) }
        requires room { length self.old.core.entries < self.old.core.setup.limit }
        ensures at { RetracedFollowsCore self.new }
        ensures core { self.new.core ≡ with_entry self.old.core e.now }
    {
        retrace(&mut self.core, e);
        self.usages.add(&self.core, e);
        self.usages.resize(&self.core);
        self.moment = e.to;
    }
}
