//! The machine with all that stands beside it from step to step, and a step by its parts.
ghost use Rattle.std.specs.Prelude.{◌≡◌, ◌<◌, ◌/◌, ◌++◌, [], ◌∷◌, length, All, IfOk, IfSome, false};
ghost use Rattle.aps_model.specs.Due.{due, last_to};
ghost use Rattle.aps_model.specs.History.{IsEntry};
ghost use Rattle.aps_model.specs.Limits.{most_cpus};
ghost use Rattle.aps_model.specs.Opening.{opening};
ghost use Rattle.aps_model.specs.Step.{step};
ghost use Rattle.aps_model.specs.Valid.{IsScenario};
ghost use Rattle.aps_core.specs.Counts.{Counts, parts_in};
ghost use Rattle.aps_core.specs.Kept.{KeepsFrame};
ghost use Rattle.aps_core.specs.LastEnds.{AreEnds};
ghost use Rattle.aps_core.specs.NextDues.{dues_after};
ghost use Rattle.aps_core.specs.Pending.{IsPending};
ghost use Rattle.aps_core.specs.Posts.{ArePosts};
ghost use Rattle.aps_core.specs.Ready.{IsReady};
ghost use Rattle.aps_core.specs.Rising.{IsRising};
ghost use Rattle.aps_core.specs.Scheduler.{IsSchedulerAfter};
ghost use Rattle.aps_core.specs.Seats.{seats_of};
ghost use Rattle.aps_core.specs.Sleepers.{sleepers_of};

mod pick;
mod starting;
mod tick;

use crate::dues::Dues;
use crate::ends::Ends;
use crate::machine::wake::Woken;
use crate::machine::{Machine, bill};
use crate::posts::Posts;
use crate::standing::Standing;
use crate::usage;
use aps_ctl::Ctl;
use aps_model::{CpuId, Entry, NoMemory, PartitionId, Scenario};
use aps_ready::Ready;
use aps_timer::Timer;
use aps_window::Window;
use starting::{start_queues, start_window};
use std::alloc::Global;

/// The machine and what it works with: where each processor's last entry ended and when it steps next, what each runs, the
/// window and how the partitions stand by it, the ready threads in their queues, the sleeping ones in their timer, those that
/// woke in this step, and the commands to come.
pub struct Scheduler {
    pub machine: Machine,
    pub ends: Ends,
    pub dues: Dues,
    pub posts: Posts,
    pub window: Window,
    pub standing: Standing,
    pub ready: Ready,
    pub timer: Timer,
    pub woken: Woken,
    pub ctl: Ctl,
}

// Written out, so that it is proved here alone: a derived drop is proved again in each crate that lets a value go.
impl Drop for Scheduler {
    fn drop(self) {
        let Self {
            machine: _,
            ends: _,
            dues: _,
            posts: _,
            window: _,
            standing: _,
            ready: _,
            timer: _,
            woken: _,
            ctl: _,
        } = self;
    }
}

impl Scheduler {
    /// That of a scenario at its start. It takes all the memory that the steps need; where it isn't there the answer is
    /// `NoMemory`.
    pub fn boot(alloc: Global, scenario: &Scenario) -> Result<Scheduler, NoMemory>
        requires { IsScenario scenario.now }
        ensures machine { IfOk result (λ s. s.machine ≡ opening scenario.now) }
        ensures after { IfOk result (IsSchedulerAfter scenario.now []) }
    {
        let machine = Machine::boot(alloc, scenario)?;
        let (window, standing) = start_window(alloc, &machine, scenario)?;
        let (ready, timer, woken, ctl) = start_queues(alloc, &machine, scenario)?;
        let ends = Ends::new();
        let dues = Dues::new();
        let posts = machine.start_posts();
        Ok(Scheduler {
            machine,
            ends,
            dues,
            posts,
            window,
            standing,
            ready,
            timer,
            woken,
            ctl,
        })
    }

    /// One step of the processor, at its due moment, by its parts. When it steps next is told behind it (`set_due`).
    #[inline(always)]
    pub fn step(&mut self, scenario: &Scenario, entries: &[Entry], cpu: CpuId) -> Stepped
        requires valid { IsScenario scenario.now }
        requires ready { IsReady scenario.now self.old.machine entries.now cpu }
        requires entries { All IsEntry entries.now }
        requires rising { IsRising entries.now }
        requires after { IsSchedulerAfter scenario.now entries.now self.old }
        ensures same { step scenario.now self.old.machine entries.now cpu
            ≡ record { entry = result.entry; state = self.new.machine; reboot = result.reboot } }
        ensures pending { IsPending scenario.now self.old.machine.shape.tick (entries.now ++ result.entry ∷ []) self.new.ctl }
        ensures counts { Counts self.new.machine.shape (entries.now ++ result.entry ∷ [])
            (result.entry.to / self.new.machine.shape.tick) self.new.window }
        ensures stands { self.new.standing ≡ parts_in self.new.machine.shape self.new.machine.rows self.new.window }
        ensures kept { result.is_changed ≡ false → KeepsFrame self.old.machine self.new.machine }
        ensures seats { self.new.ready ≡ seats_of self.new.machine }
        ensures timed { self.new.timer ≡ sleepers_of self.new.machine }
        ensures posts { ArePosts self.new.machine self.new.posts }
        ensures flagged { IfSome result.entry.flagged (λ d. d < length self.new.machine.cpus) }
        ensures ends { AreEnds (entries.now ++ result.entry ∷ []) self.new.ends }
        ensures dues { self.new.dues ≡ self.old.dues }
    {
        let now = self.dues.of(cpu);
        let from = self.ends.last_end(entries, cpu);
        let tick = self.machine.tick_of(now, self.window.tick());
        let is_later = usage::go_on(&mut self.window, tick);
        let running = self.machine.begin(cpu);
        let commanded = self.begin_tick(scenario, entries, now, tick, is_later);
        let e = bill::bill_of(cpu, from, now, &running);
        usage::add_time(&mut self.window, self.machine.shape(), &e);
        self.machine.bill(&e, &running);
        let changes = self.machine.change_count();
        let reboot = self.machine.test(entries, &self.window, &e);
        let is_changed = commanded | (changes < self.machine.change_count());
        let is_any = is_later | is_changed;
        self.machine
            .stand_by(&self.window, &mut self.standing, is_any, &e.billed);
        if self.machine.is_over(&reboot, now) {
            self.machine.sync_all(&mut self.ready);
            self.machine.post_all(&mut self.posts);
            self.ends.add(&e);
            return Stepped {
                entry: e,
                reboot,
                is_changed,
            };
        }
        let done = self.machine.settle(scenario, now, &running);
        self.machine
            .sync(&mut self.ready, commanded, &self.woken, &e.ran, &done);
        self.machine.time_done(&mut self.timer, &e.ran, &done);
        self.machine
            .post_others(&mut self.posts, cpu, commanded, &done);
        let mut entry = Entry { done, ..e };
        self.pick(entries, cpu, &mut entry);
        self.ends.add(&entry);
        Stepped {
            entry,
            reboot: None,
            is_changed,
        }
    }

    /// When the processors step next after these entries, of which this is the last one: its processor where it is due then,
    /// and who is flagged now.
    #[inline(always)]
    pub fn set_due(&mut self, entries: &[Entry], last: &Entry)
        requires entries { All IsEntry entries.now }
        requires ends { AreEnds entries.now self.old.ends }
        requires at_hand { IfSome (last_to entries.now last.now.cpu) (λ to. self.old.window.tick ≡ to / self.old.machine.shape.tick) }
        requires cpu { last.now.cpu < length self.old.machine.cpus }
        ensures same { self.new
            ≡ record self.old { dues = dues_after self.old.dues last.now (due self.old.machine entries.now last.now.cpu) } }
        ensures whole { length self.old.dues ≡ most_cpus }
    {
        let due = self
            .machine
            .due(entries, &self.ends, self.window.tick(), last.cpu);
        self.dues.go_on(last, due);
    }
}

/// What a step made: its entry, the partition for which it ends the run by a reboot, and whether rows, parameters, replies
/// or changes may be others than before.
#[derive(Clone, Copy, PartialEq, Eq)]
pub struct Stepped {
    pub entry: Entry,
    pub reboot: Option<PartitionId>,
    pub is_changed: bool,
}
