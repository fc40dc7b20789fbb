//! Runs of one processor, on scenarios with a thread in each of two partitions, and calls with the answers that they have to
//! give.
ghost use Rattle.std.specs.Prelude.{◌≡◌, ◌<◌, ◌≤◌, length};
ghost use Rattle.aps_live.specs.LiveHistory.{NamesThread};
ghost use Rattle.aps_live.specs.Seats.{HasAllCpus, IsSeatOf};
ghost use Rattle.aps_model.specs.Limits.{last_moment, most_entries};

use aps_live::{Live, LiveEvent, LiveHistory, LiveSeat, LiveTurn};
use aps_model::{CpuId, Done, Entry, Nanos, PartitionId, ThreadId};
use aps_scenario::scenario_of;
use std::alloc::Global;
use std::process::Abort;
use std::sync::Wait;

/// The thread of `System` has the lower priority.
pub const LOWER_FIRST: &str = r#"version = 1
cpus = 1
window = 10
ticks = 20
partition = [{name = "A", budget = 50}]
thread = [
  {name = "s", priority = 5, program = ["run forever"]},
  {name = "a", partition = "A", program = ["run forever"]},
]
"#;

/// Both threads have the same priority.
pub const EQUALS: &str = r#"version = 1
cpus = 1
window = 10
ticks = 20
partition = [{name = "A", budget = 50}]
thread = [
  {name = "s", program = ["run forever"]},
  {name = "a", partition = "A", program = ["run forever"]},
]
"#;

/// A thread of the scenario. Each is alone in its partition, `System` or `A`.
#[derive(Clone, Copy)]
pub enum Who {
    S,
    A,
}

impl Who {
    /// The thread.
    pub fn thread(self) -> ThreadId
        ensures { result < 2 }
    {
        match self {
            Who::S => ThreadId::at(0),
            Who::A => ThreadId::at(1),
        }
    }

    /// Its partition.
    pub fn partition(self) -> PartitionId {
        match self {
            Who::S => PartitionId::at(0),
            Who::A => PartitionId::at(1),
        }
    }
}

/// What a call tells.
#[derive(Clone, Copy)]
pub enum Told {
    Stay,
    Block,
    Wake(Who),
}

/// The answer that took the entry: who ran from when to when (ns), who was picked, and whose partition was starved.
pub fn took(
    from: Nanos,
    to: Nanos,
    ran: Option<Who>,
    picked: Option<Who>,
    starved: Option<Who>,
) -> LiveTurn {
    LiveTurn::Took(Entry {
        from,
        to,
        done: Done::Nothing,
        ran: ran.map(Who::thread),
        picked: picked.map(Who::thread),
        billed: ran.map(Who::partition),
        starved: starved.map(Who::partition),
        flagged: None,
        cpu: CpuId::at(0),
        critical: false,
    })
}

/// A call at a moment (ns), and the answer that it has to give.
#[derive(Clone, Copy)]
pub struct Call {
    pub now: Nanos,
    pub told: Told,
    pub turn: LiveTurn,
    ghost early: { now ≤ 10000000000000 },
}

/// The call at a moment, and its answer.
pub fn at(now: Nanos, told: Told, turn: LiveTurn) -> Call
    requires { now ≤ last_moment }
{
    Call { now, told, turn }
}

/// A run of such a scenario, with the seat of its processor.
#[derive(Drop)]
pub struct OneProcessor {
    live: Live,
    seat: LiveSeat,
    ghost of: { IsSeatOf live seat },
    ghost all: { HasAllCpus seat },
    ghost two: { 2 ≤ length live.setup.scenario.threads },
}

impl OneProcessor {
    /// The run of this scenario with room for so many entries.
    pub fn open(rt: &impl Abort, alloc: Global, text: &str, limit: u32) -> OneProcessor
        requires some { 1 ≤ limit }
        requires few { limit ≤ most_entries }
    {
        let scenario = scenario_of(alloc, text.as_bytes()).expect(rt, "a scenario");
        assert!(rt; scenario.threads().len() >= 2);
        let (live, seat) = Live::open(alloc, scenario, limit).expect(rt, "memory");
        OneProcessor { live, seat }
    }

    /// One call for processor 0.
    pub fn step<R: Wait>(&mut self, rt: &R, now: Nanos, told: Told) -> LiveTurn
        requires { now ≤ last_moment }
    {
        let event = match told {
            Told::Stay => LiveEvent::Stay,
            Told::Block => LiveEvent::Block,
            Told::Wake(who) => LiveEvent::Wake(who.thread()),
        };
        self.live
            .live_step(rt, &mut self.seat, CpuId::at(0), now, event)
    }

    /// Makes the calls, each of which has to give its answer.
    pub fn check<R: Abort + Wait>(&mut self, rt: &R, calls: &[Call]) {
        for call in calls {
            let turn = self.step(rt, call.now, call.told);
            assert_eq!(rt; turn, call.turn);
        }
    }

    /// How many entries the seat has seen.
    pub fn seen_len(&self) -> u64 {
        self.seat.seen_len()
    }

    /// The history at the end.
    pub fn close(self) -> LiveHistory {
        let OneProcessor { live, seat } = self;
        live.close(seat)
    }
}
