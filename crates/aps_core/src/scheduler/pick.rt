//! The pick of a step, and the flag after it.
ghost use Rattle.std.specs.Prelude.{◌≡◌, ◌<◌, ◌≤◌, ◌/◌, ◌++◌, [], ◌∷◌, length, slice_index, IfSome, None};
ghost use Rattle.std.specs.Option.{option_map};
ghost use Rattle.aps_model.specs.Budget.{all_parts};
ghost use Rattle.aps_model.specs.Step.{pick};
ghost use Rattle.aps_core.specs.Kept.{KeepsFrame};
ghost use Rattle.aps_core.specs.NextDues.{AreOthersDues, AreSpare};
ghost use Rattle.aps_core.specs.Posts.{AreOthersPosts, ArePosts};
ghost use Rattle.aps_core.specs.Seats.{seats_of};

use super::Scheduler;
use aps_model::{Contender, CpuId, Entry, Facts, ThreadId};

impl Scheduler {
    /// The pick of the processor after this entry, which has its operation, and then the flag. The entry has both then.
    pub fn pick(&mut self, entries: &[Entry], cpu: CpuId, e: &mut Entry)
        requires stands { self.old.standing
            ≡ all_parts self.old.machine.shape self.old.machine.rows (entries.now ++ e.old ∷ []) (e.old.to / self.old.machine.shape.tick) }
        requires cpu { cpu < length self.old.machine.cpus }
        requires seats { self.old.ready ≡ seats_of self.old.machine }
        requires dues { AreOthersDues self.old.machine entries.now cpu self.old.dues }
        requires spare { AreSpare self.old.machine self.old.dues }
        requires own { slice_index self.old.dues cpu ≤ e.old.to }
        requires posts { AreOthersPosts self.old.machine cpu self.old.posts }
        ensures same { pick self.old.machine entries.now cpu e.old.to e.old
            ≡ record { entry = e.new; state = self.new.machine; reboot = None } }
        ensures kept { KeepsFrame self.old.machine self.new.machine }
        ensures seats { self.new.ready ≡ seats_of self.new.machine }
        ensures posts { ArePosts self.new.machine self.new.posts }
        ensures flagged { IfSome e.new.flagged (λ d. d < length self.new.machine.cpus) }
        ensures others { self.new ≡ record self.old { machine = self.new.machine; posts = self.new.posts; ready = self.new.ready } }
    {
        let now = e.to;
        let shape = *self.machine.shape();
        let parts = self.standing.parts();
        let gates = self.standing.gates();
        let classes = self.standing.classes();
        let starved = self.ready.missing_by(gates);
        let best = self.ready.take_greatest(gates, parts, shape.free);
        let picked = thread_of(&best);
        self.machine.choose(parts, cpu, best);
        self.posts.set(cpu, facts_of(&best));
        self.posts.go_by(classes);
        let flagged = self.machine.flag_after(
            entries,
            &self.dues,
            parts,
            &self.posts,
            gates,
            classes,
            &self.ready,
            cpu,
            now,
            &best,
        );
        self.machine.flag(now, &flagged);
        e.picked = picked;
        e.starved = starved;
        e.flagged = flagged;
    }
}

/// The thread of a contender.
fn thread_of(best: &Option<Contender>) -> Option<ThreadId>
    ensures { result ≡ option_map (λ b. b.thread) best.now }
{
    match best {
        None => None,
        Some(b) => Some(b.thread),
    }
}

/// The inherited values of a contender.
#[inline(always)]
fn facts_of(best: &Option<Contender>) -> Option<Facts>
    ensures { result ≡ option_map (λ b. b.facts) best.now }
{
    match best {
        None => None,
        Some(b) => Some(b.facts),
    }
}
