//! The commands that are still to come.
ghost use Rattle.std.specs.Prelude.{◌≡◌, length, IfOk};
ghost use Rattle.std.specs.List.{enumerate_from, position};
ghost use Rattle.aps_ctl.specs.Pending.{is_at, next_at, without_next};

use aps_model::{Call, CommandRow, NoMemory, Scenario};
use std::alloc::Global;
use std::marker::Model;

/// The commands of a run that are still to come. Contracts see them in order of the scenario, each with its place
/// there.
pub struct Ctl {
    pending: Vec<(u16, CommandRow)>,
}

// Written out, so that it is proved here alone: a derived drop is proved again in each crate that lets a value go.
impl Drop for Ctl {
    fn drop(self) {
        let Self { pending: _ } = self;
    }
}

impl Model for Ctl {
    ghost use Rattle.std.specs.Prelude.{ℕ, List};
    ghost use Rattle.aps_model.specs.declared.command.CommandRow.{CommandRow};

    ghost Value = { List (ℕ × CommandRow) };

    ghost view = { λ c. c.pending.items };
}

impl Ctl {
    /// All commands of the scenario. `NoMemory` comes where there is no room for them.
    pub fn new(alloc: Global, scenario: &Scenario) -> Result<Ctl, NoMemory>
        ensures { IfOk result (λ ctl. ctl ≡ enumerate_from 0 scenario.now.commands) }
    {
        let commands = scenario.commands();
        let mut pending = Vec::with_capacity(alloc, commands.len())?;
        for i in 0..commands.len() {
            pending.push((i as u16, commands[i]))?;
        }
        Ok(Ctl { pending })
    }

    /// The next command of the tick, with its place in the scenario; it is no longer to come. There is none exactly
    /// where no command of the tick is left.
    pub fn next_at(&mut self, tick: u32) -> Option<(u16, Call)>
        ensures next { result ≡ next_at tick self.old }
        ensures left { self.new ≡ without_next tick self.old }
    {
        let place = self.place_of(tick)?;
        let (command, row) = self.pending.remove(place);
        Some((command, row.call))
    }

    /// Where the next command of the tick stands.
    fn place_of(&self, tick: u32) -> Option<usize>
        ensures { result ≡ position (is_at tick) self.now }
    {
        self.pending.iter().position(|(_, row)| row.tick == tick)
    }
}
