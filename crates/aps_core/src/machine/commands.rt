//! The timed commands of a tick.
ghost use Rattle.std.specs.Prelude.{◌≡◌, ◌≢◌, ℕ, ◌<◌, ◌≤◌, length, false};
ghost use Rattle.std.specs.Option.{option_map};
ghost use Rattle.aps_model.specs.Limits.{most_commands, most_ticks};
ghost use Rattle.aps_model.specs.TickWork.{do_command, thread_named, thread_view, view_of, with_mark};
ghost use Rattle.aps_ctl.specs.Pending.{all_at};
ghost use Rattle.aps_core.specs.Calls.{AreInRange, IsCallInRange, all_done, command_at};
ghost use Rattle.aps_core.specs.Counts.{Counts, critical_in, used_in};
ghost use Rattle.aps_core.specs.Room.{changes_of_a_run};

use super::Machine;
use crate::append::{push_change, push_reply};
use crate::usage;
use aps_ctl::{Ctl, change_by, mark_by, perform};
use aps_model::{Call, Change, CtlView, Entry, Nanos, PartitionId, Reply, ThreadId, ThreadView};
use aps_window::Window;

/// The thread that a command names.
fn thread_named(call: &Call) -> Option<ThreadId>
    ensures { result ≡ thread_named call.now }
{
    match call {
        Call::QueryThread { thread } => Some(*thread),
        Call::MarkCritical { thread } => Some(*thread),
        Call::ClearCritical { thread } => Some(*thread),
        _ => None,
    }
}

/// What each of 32 partitions used in the window, and what of that was critical, also those that don't exist.
fn all_used(window: &Window) -> ([Nanos; 32], [Nanos; 32])
    ensures used { result.0 ≡ used_in window.now }
    ensures critical { result.1 ≡ critical_in window.now }
{
    let mut used = [0; 32];
    let mut critical = [0; 32];
    for p in 0..32 {
        let id = PartitionId::at(p);
        used[p] = window.used(id);
        critical[p] = window.critical_used(id);
    }
    (used, critical)
}

impl Machine {
    /// The thread that the command names, as it stands.
    fn thread_view(&self, call: &Call) -> Option<ThreadView>
        ensures { result ≡ option_map (thread_view self.now) (thread_named call.now) }
    {
        let x = thread_named(call)?;
        Some(ThreadView {
            own: self.own(x),
            now: self.facts_of(x),
            state: self.task(x).state,
        })
    }

    /// What the command sees at a tick.
    fn view_of(&self, entries: &[Entry], window: &Window, tick: u64, call: &Call) -> CtlView
        requires counts { Counts self.now.shape entries.now tick window.now }
        ensures { result ≡ view_of self.now entries.now tick call.now }
    {
        let (used, critical_used) = all_used(window);
        CtlView {
            used,
            critical_used,
            thread: self.thread_view(call),
        }
    }

    /// The thread that the command names has this mark of its own, if one is set.
    fn set_mark(&mut self, call: &Call, mark: Option<bool>)
        ensures { self.new ≡ with_mark self.old (thread_named call.now) mark }
    {
        if let Some(x) = thread_named(call) {
            if let Some(critical) = mark {
                self.mark(x, critical);
            }
        }
    }

    /// Does the command at this place of the scenario, and keeps its reply and its change.
    fn do_command(
        &mut self,
        entries: &[Entry],
        window: &mut Window,
        tick: u64,
        place: u16,
        call: &Call,
    )
        requires counts { Counts self.old.shape entries.now tick window.old }
        requires tick { tick ≤ most_ticks }
        requires call { IsCallInRange call.now }
        requires replies { length self.old.replies < most_commands }
        requires changes { length (do_command entries.now tick self.old (command_at tick place call.now)).changes ≤ changes_of_a_run }
        ensures same { self.new ≡ do_command entries.now tick self.old (command_at tick place call.now) }
        ensures counts { Counts self.new.shape entries.now tick window.new }
    {
        let view = self.view_of(entries, window, tick, call);
        let before = self.shape.window;
        let answer = perform(call, &mut self.tree, &mut self.shape, &view);
        usage::resize(window, before, &self.shape);
        let change = change_by(call, &answer, &self.tree);
        self.set_mark(call, mark_by(&answer));
        let reply = Reply {
            command: place,
            answer,
        };
        push_reply(&mut self.replies, reply);
        if let Some(kind) = change {
            let tick = tick as u32;
            push_change(&mut self.changes, Change { tick, kind });
        }
    }

    /// Does the commands of a tick that are still to come, in order of the scenario. Those of other ticks stay. The answer
    /// is whether there was one.
    pub fn do_commands(
        &mut self,
        entries: &[Entry],
        window: &mut Window,
        ctl: &mut Ctl,
        tick: u64,
    ) -> bool
        requires counts { Counts self.old.shape entries.now tick window.old }
        requires tick { tick ≤ most_ticks }
        requires calls { AreInRange (all_at tick ctl.old) }
        requires replies { length (all_done entries.now tick self.old ctl.old).replies ≤ most_commands }
        requires changes { length (all_done entries.now tick self.old ctl.old).changes ≤ changes_of_a_run }
        ensures same { self.new ≡ all_done entries.now tick self.old ctl.old }
        ensures counts { Counts self.new.shape entries.now tick window.new }
        ensures others { (j : ℕ) → j ≢ tick → all_at j ctl.new ≡ all_at j ctl.old }
        ensures idle { result ≡ false → (self.new ≡ self.old) × (window.new ≡ window.old) }
    {
        let mut commanded = false;
        while let Some((place, call)) = ctl.next_at(tick as u32) {
            self.do_command(entries, window, tick, place, &call);
            commanded = true;
        }
        commanded
    }
}
