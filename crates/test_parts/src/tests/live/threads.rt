//! Two threads, each with a seat of one processor and moments of its own.
ghost use Rattle.std.specs.Prelude.{◌≡◌, ◌+◌, ◌<◌, ◌≤◌};
ghost use Rattle.aps_live.specs.Seats.{HasCpu, IsSeatOf};
ghost use Rattle.test_parts.specs.Opened.{HasFour, IsStill};
ghost use Rattle.aps_model.specs.Limits.{last_moment};

use super::two_processors::opened;
use aps_live::{Live, LiveEvent, LiveHistory, LiveSeat, LiveTurn};
use aps_model::{CpuId, Entry, Nanos, ThreadId};
use std::alloc::Global;
use std::process::Abort;
use std::sync::Wait;
use std::sync::atomic::Ordering::SeqCst;
use std::sync::atomic::{AtomicBool, AtomicU64};
use std::thread;
use std::thread::{Threads, join_mut};

/// How many entries each thread takes.
const STEPS: usize = 200;

/// The time between two of them (ns), where the other thread isn't further on.
const STEP_NS: Nanos = 70_000;

/// The last moment that may be told (ns).
const LAST_MOMENT: Nanos = 10_000_000_000_000;

/// After so many looks in vain a thread gives up waiting for the other one.
const MOST_LOOKS: u32 = 50_000_000;

/// Where two threads wait for each other, so that both are under way at once.
#[derive(Drop)]
struct Meeting {
    arrived: AtomicU64,
    missed: AtomicBool,
}

impl Meeting {
    fn new() -> Meeting {
        Meeting {
            arrived: AtomicU64::new(0),
            missed: AtomicBool::new(false),
        }
    }

    /// Waits until both have come.
    fn attend(&self) {
        self.arrived.fetch_add(1, SeqCst);
        for _ in 0..MOST_LOOKS {
            if self.arrived.load(SeqCst) >= 2 {
                return;
            }
            thread::yield_now();
        }
        self.missed.store(true, SeqCst);
    }
}

/// A thread that steps one processor, and keeps the entries that it took.
#[derive(Drop)]
struct Walker {
    seat: LiveSeat,
    cpu: CpuId,
    wakes: ThreadId,
    took: Vec<Entry>,
}

impl Walker {
    /// A walker that has taken nothing yet, of the seat's first processor.
    fn new(alloc: Global, seat: LiveSeat, wakes: ThreadId) -> Walker
        ensures { (result.seat ≡ seat) × (result.cpu ≡ seat.first) × (result.wakes ≡ wakes) }
    {
        let cpu = seat.first();
        Walker {
            seat,
            cpu,
            wakes,
            took: Vec::new(alloc),
        }
    }

    /// Takes its entries. Each moment in vain is one that the other thread has gone beyond in the meantime, so there are
    /// no more of these than that thread takes entries.
    fn walk<R: Wait>(&mut self, rt: &R, live: &Live, meeting: &Meeting)
        requires seat { IsSeatOf live.now self.old.seat × HasCpu self.old.seat self.old.cpu }
        requires wakes { (self.old.wakes < 4) × HasFour live.now }
        ensures { IsStill self.old.seat self.new.seat }
    {
        let mut now = 0;
        for _ in 0..2 * STEPS {
            match self.step(rt, live, now) {
                LiveTurn::Took(e) => {
                    if self.took.is_empty() {
                        meeting.attend();
                    }
                    now = e.to.min(LAST_MOMENT - STEP_NS) + STEP_NS;
                    if self.took.push(e).is_err() {
                        return;
                    }
                    if self.took.len() >= STEPS {
                        return;
                    }
                }
                LiveTurn::Back { now_seen } => now = now_seen.min(LAST_MOMENT),
                LiveTurn::Full => return,
            }
        }
    }

    /// One call at the moment. The first entry wakes the thread's own.
    fn step<R: Wait>(&mut self, rt: &R, live: &Live, now: Nanos) -> LiveTurn
        requires seat { IsSeatOf live.now self.old.seat × HasCpu self.old.seat self.old.cpu }
        requires wakes { (self.old.wakes < 4) × HasFour live.now }
        requires early { now ≤ last_moment }
        ensures seat { IsSeatOf live.now self.new.seat × HasCpu self.new.seat self.new.cpu }
        ensures still { IsStill self.old.seat self.new.seat }
        ensures others { self.new ≡ record self.old { seat = self.new.seat } }
    {
        let event = if self.took.is_empty() {
            LiveEvent::Wake(self.wakes)
        } else {
            LiveEvent::Stay
        };
        live.live_step(rt, &mut self.seat, self.cpu, now, event)
    }
}

/// Whether the history's entries of the processor are these, each once and in their order.
fn is_found(history: &LiveHistory, cpu: CpuId, took: &[Entry]) -> bool {
    let mut found = 0;
    for e in history.entries() {
        if e.cpu == cpu {
            if took.get(found) != Some(e) {
                return false;
            }
            found += 1;
        }
    }
    found == took.len()
}

/// Both walk, each in a thread.
fn walk_both<R: Threads + Wait + Sync>(
    rt: &R,
    live: &Live,
    meeting: &Meeting,
    zero: &mut Walker,
    one: &mut Walker,
)
    requires threads { HasFour live.now }
    requires zero { IsSeatOf live.now zero.old.seat × HasCpu zero.old.seat zero.old.cpu × (zero.old.wakes < 4) }
    requires one { IsSeatOf live.now one.old.seat × HasCpu one.old.seat one.old.cpu × (one.old.wakes < 4) }
    ensures { IsStill zero.old.seat zero.new.seat × IsStill one.old.seat one.new.seat }
{
    join_mut(
        rt,
        &mut || zero.walk(rt, live, meeting),
        &mut || one.walk(rt, live, meeting),
    );
}

/// The history, and the entries that each thread took.
#[derive(Drop)]
struct Walked {
    history: LiveHistory,
    of_zero: Vec<Entry>,
    of_one: Vec<Entry>,
}

/// Lets both walk, and hands back the history and what each took.
fn both_walked<R: Abort + Threads + Wait + Sync>(
    rt: &R,
    alloc: Global,
    meeting: &Meeting,
) -> Walked {
    let (live, mut x) = opened(rt, alloc);
    assert!(rt; x.last().index() == 1);
    let y = live.split(&mut x, CpuId::at(1));
    let mut zero = Walker::new(alloc, x, ThreadId::at(0));
    let mut one = Walker::new(alloc, y, ThreadId::at(2));
    walk_both(rt, &live, meeting, &mut zero, &mut one);
    closed(live, zero, one)
}

/// The history of the run that both have walked to its end.
fn closed(live: Live, zero: Walker, one: Walker) -> Walked
    requires zero { IsSeatOf live zero.seat × (zero.seat.first ≡ 0) }
    requires one { IsSeatOf live one.seat × (one.seat.last + 1 ≡ live.setup.scenario.shape.cpus) }
    requires next { zero.seat.last + 1 ≡ one.seat.first }
{
    let Walker {
        seat: mut x,
        took: of_zero,
        ..
    } = zero;
    let Walker {
        seat: y,
        took: of_one,
        ..
    } = one;
    live.join(&mut x, y);
    Walked {
        history: live.close(x),
        of_zero,
        of_one,
    }
}

#[test]
fn two_threads_find_their_entries(rt: HostRuntime) {
    let meeting = Meeting::new();
    let walked = both_walked(&rt, rt.alloc(), &meeting);
    assert!(rt; !meeting.missed.load(SeqCst));
    let lengths = (walked.of_zero.len(), walked.of_one.len());
    assert!(rt; lengths == (STEPS, STEPS));
    assert!(rt; is_found(&walked.history, CpuId::at(0), &walked.of_zero));
    assert!(rt; is_found(&walked.history, CpuId::at(1), &walked.of_one));
    assert!(rt; walked.history.entries().len() == 2 * STEPS);
}
