//! The cycles of a thread: from the end of a sleep, or the start, to the next sleep or the thread's end.
ghost use Rattle.std.specs.Prelude.{◌≡◌, ◌-◌, ◌<◌, ◌≤◌, ◌^◌, None, IfOk, OnOk};
ghost use Rattle.view_lives.specs.Cycle.{begun_or, closing, cycles_in, gone_on, rests, with_segment, with_time};
ghost use Rattle.view_lives.specs.Room.{AreAtMost, HasRoomInCycle};

use crate::doing::Doing;
use crate::life::{Life, Segment};
use aps_model::{Nanos, NoMemory};
use std::alloc::Global;
use std::marker::Model;

/// How long (ns) a thread ran, was ready, waited for a server or its reply, and waited for a message.
// A life tells no bound of its length, so 64 bits might not do.
#[derive(Clone, Copy, PartialEq, Eq)]
pub struct Times {
    pub running: u128,
    pub ready: u128,
    pub calling: u128,
    pub receiving: u128,
}

/// A cycle that has ended: from one moment to another (ns) the thread neither slept nor was gone, and then it was.
#[derive(Clone, Copy, PartialEq, Eq)]
pub struct Cycle {
    pub begin: Nanos,
    pub end: Nanos,
    pub times: Times,
}

/// A cycle that goes on: since this moment (ns) the thread neither slept nor was gone.
#[derive(Clone, Copy, PartialEq, Eq)]
pub struct Begun {
    pub begin: Nanos,
    pub times: Times,
}

/// The cycles of a life: those that have ended, in order, and the one that goes on at the life's end, if one does.
#[derive(Drop)]
pub struct Cycles {
    ended: Vec<Cycle>,
    current: Option<Begun>,
}

impl Model for Cycles {
    ghost use Rattle.view_lives.specs.Cycle.{Cycles as Plain};

    ghost Value = { Plain };

    ghost view = { λ cycles. record { ended = cycles.ended.items; current = cycles.current } };
}

impl Cycles {
    /// The cycles of this life. `NoMemory` comes where memory runs out.
    pub fn of(alloc: Global, life: &Life) -> Result<Cycles, NoMemory>
        ensures { IfOk result (λ cycles. cycles ≡ cycles_in life.now) }
    {
        let mut cycles = Cycles {
            ended: Vec::new(alloc),
            current: None,
        };
        for segment in life.segments() {
            cycles.add(segment)?;
        }
        Ok(cycles)
    }

    /// The cycles that have ended, in order.
    pub fn ended(&self) -> &[Cycle]
        ensures { result.now ≡ self.now.ended }
    {
        self.ended.as_slice()
    }

    /// The cycle that goes on at the end.
    pub fn current(&self) -> Option<Begun>
        ensures { result ≡ self.now.current }
    {
        self.current
    }

    /// The life goes on with this segment.
    fn add(&mut self, segment: &Segment) -> Result<(), NoMemory>
        requires { HasRoomInCycle self.old.current }
        ensures same { OnOk result (self.new ≡ with_segment self.old segment.now) }
        ensures short { segment.now.to - segment.now.from ≤ 18446744073709551616 }
    {
        let ns = u128::from(segment.to.saturating_sub(segment.from));
        if rests(&segment.doing) {
            self.close(segment.from)
        } else {
            self.current = Some(gone_on(&self.current, segment, ns));
            Ok(())
        }
    }

    /// The cycle that goes on, if one does, ends at this moment.
    fn close(&mut self, moment: Nanos) -> Result<(), NoMemory>
        ensures { OnOk result (self.new ≡ record { ended = closing self.old.ended self.old.current moment; current = None }) }
    {
        if let Some(Begun { begin, times }) = self.current {
            self.ended.push(Cycle {
                begin,
                end: moment,
                times,
            })?;
        }
        self.current = None;
        Ok(())
    }
}

/// Whether a thread that does this is in no cycle.
fn rests(doing: &Doing) -> bool
    ensures { result ≡ rests doing.now }
{
    match doing {
        Doing::Sleeping | Doing::Gone => true,
        _ => false,
    }
}

/// The cycle that goes on, or begins, with this segment, which is so long.
fn gone_on(current: &Option<Begun>, segment: &Segment, ns: u128) -> Begun
    requires room { HasRoomInCycle current.now }
    requires length { ns ≡ segment.now.to - segment.now.from }
    requires short { ns < 2 ^ 64 }
    ensures { result ≡ gone_on current.now segment.now }
{
    let begun = begun_or(current, segment.from);
    Begun {
        times: with_time(begun.times, &segment.doing, ns),
        ..begun
    }
}

/// The cycle that goes on, or one that begins at this moment.
fn begun_or(current: &Option<Begun>, moment: Nanos) -> Begun
    ensures { result ≡ begun_or current.now moment }
{
    match current {
        Some(begun) => *begun,
        None => Begun {
            begin: moment,
            times: Times {
                running: 0,
                ready: 0,
                calling: 0,
                receiving: 0,
            },
        },
    }
}

/// The times with so many nanoseconds more of this.
fn with_time(times: Times, doing: &Doing, ns: u128) -> Times
    requires room { AreAtMost (2 ^ 127) times }
    requires short { ns < 2 ^ 64 }
    ensures { result ≡ with_time times doing.now ns }
{
    match doing {
        Doing::Ready => Times {
            ready: times.ready + ns,
            ..times
        },
        Doing::Running { .. } => Times {
            running: times.running + ns,
            ..times
        },
        Doing::Sending(_) | Doing::Replying(_) => Times {
            calling: times.calling + ns,
            ..times
        },
        Doing::Receiving(_) => Times {
            receiving: times.receiving + ns,
            ..times
        },
        Doing::Sleeping | Doing::Gone => times,
    }
}
