//! The pick: a processor keeps the greatest candidate.
ghost use Rattle.std.specs.Prelude.{◌≡◌, ◌<◌, length};
ghost use Rattle.aps_model.specs.Step.{chosen};

use super::Machine;
use crate::merit;
use aps_model::{Contender, CpuId, CpuNow, PartFacts, Pick, State};

impl Machine {
    /// The processor keeps the greatest candidate, or nobody.
    pub fn choose(&mut self, parts: &[PartFacts], cpu: CpuId, best: Option<Contender>)
        requires { cpu < length self.old.cpus }
        ensures { self.new ≡ chosen self.old parts.now cpu best }
    {
        let running = match best {
            None => None,
            Some(b) => {
                let critical = merit::is_critical_among(parts, &b);
                self.set_state(b.thread, State::Running(cpu));
                Some(Pick {
                    thread: b.thread,
                    partition: b.facts.partition,
                    critical,
                })
            }
        };
        self.cpus[cpu.index()] = CpuNow {
            running,
            flag: None,
        };
    }
}
