//! The parts of a step: the bill, the events, the pick.
ghost use Rattle.std.specs.Prelude.{◌≡◌, ℕ, ◌/◌, ◌<◌, ◌≤◌, ◌++◌, [], ◌∷◌, length, All, None};
ghost use Rattle.std.specs.Option.{option_map};
ghost use Rattle.aps_model.specs.Bill.{bill_of};
ghost use Rattle.aps_ready.specs.Small.{IsSmall};
ghost use Rattle.aps_live.specs.declared.event.LiveEvent.TheVariants.{Wake};
ghost use Rattle.aps_live.specs.LiveState.{live_cpu_at};
ghost use Rattle.aps_live.specs.LiveStep.{live_pick, live_settled};
ghost use Rattle.aps_live.specs.Tied.{FitsTicks, IsTied};
ghost use Rattle.aps_model.specs.Limits.{last_moment, last_tick, longest_tick, most_entries, most_partitions, shortest_tick};

use crate::bills::bill_entry;
use crate::event::LiveEvent;
use crate::machine::LiveMachine;
use aps_model::{Contender, CpuId, Done, Entry, Free, Nanos, PartFacts, Pick, ThreadId};
use aps_window::Window;

/// The entry of a processor from its last step to now, before anything is done.
pub fn bill_of(cpu: CpuId, from: Nanos, now: Nanos, running: Option<Pick>) -> Entry
    ensures same { result ≡ bill_of cpu from now running }
    ensures from { result.from ≡ from }
    ensures to { result.to ≡ now }
{
    let (ran, billed, critical) = match running {
        None => (None, None, false),
        Some(pick) => (Some(pick.thread), Some(pick.partition), pick.critical),
    };
    Entry {
        from,
        to: now,
        done: Done::Nothing,
        ran,
        picked: None,
        billed,
        starved: None,
        flagged: None,
        cpu,
        critical,
    }
}

/// The window goes on from the tick of the latest moment to that in which the entry ends, and the entry is billed to it.
pub fn bill_now(window: &mut Window, before: &[Entry], tick: u64, was: Nanos, e: &Entry)
    requires tied { IsTied tick window.old before.now }
    requires fits { FitsTicks tick (before.now ++ e.now ∷ []) }
    requires some { shortest_tick ≤ tick }
    requires short { tick ≤ longest_tick }
    requires forward { e.now.from ≤ e.now.to }
    requires early { e.now.to ≤ last_moment }
    requires was { window.old.tick ≡ was / tick }
    requires later { was ≤ e.now.to }
    ensures tied { IsTied tick window.new (before.now ++ e.now ∷ []) }
    ensures tick { window.new.tick ≡ e.now.to / tick }
    ensures span { window.new.span ≡ window.old.span }
{
    advance_to(window, before, tick, was / tick, e.to / tick);
    bill_entry(window, before, tick, e);
}

/// The window goes on to this tick.
fn advance_to(window: &mut Window, _before: &[Entry], _tick: u64, was_tick: u64, now_tick: u64)
    requires tied { IsTied _tick window.old _before.now }
    requires was { window.old.tick ≡ was_tick }
    requires later { was_tick ≤ now_tick }
    requires early { now_tick ≤ last_tick }
    ensures tied { IsTied _tick window.new _before.now }
    ensures tick { window.new.tick ≡ now_tick }
    ensures span { window.new.span ≡ window.old.span }
{
    window.advance((now_tick - was_tick) as u32);
}

/// The processor lets go of the thread that it ran, and a thread is woken.
pub fn settle(machine: &mut LiveMachine, cpu: CpuId, event: LiveEvent)
    requires cpu { cpu < length machine.old.cpus }
    requires room { machine.old.stamps ≤ most_entries }
    requires named { (x : ℕ) → event ≡ Wake x → x < length machine.old.threads }
    ensures same { machine.new ≡ live_settled machine.old cpu event }
    ensures idle { live_cpu_at machine.new cpu ≡ None }
{
    // the check wants a copy of its own of what is handed on twice
    let told = event;
    machine.release(cpu, told);
    machine.wake(event);
}

/// The pick, and the entry with it.
pub fn pick(
    machine: &mut LiveMachine,
    parts: &[PartFacts],
    free: Free,
    cpu: CpuId,
    e: Entry,
) -> Entry
    requires cpu { cpu < length machine.old.cpus }
    requires idle { live_cpu_at machine.old cpu ≡ None }
    requires small { All IsSmall parts.now }
    requires few { length parts.now ≤ most_partitions }
    ensures { live_pick free parts.now machine.old cpu e ≡ record { entry = result; state = machine.new } }
{
    let starved = machine.missing(parts);
    let best = machine.best(parts, free);
    let picked = thread_of(&best);
    machine.choose(parts, cpu, best);
    Entry {
        picked,
        starved,
        ..e
    }
}

/// The thread of a contender.
fn thread_of(best: &Option<Contender>) -> Option<ThreadId>
    ensures { result ≡ option_map (λ b. b.thread) best.now }
{
    match best {
        None => None,
        Some(b) => Some(b.thread),
    }
}
