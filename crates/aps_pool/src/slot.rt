//! A processor, with the right to step it.
ghost use Rattle.std.specs.Prelude.{◌≡◌, ◌<◌, ◌≤◌, ◌++◌};
ghost use Rattle.aps_live.specs.declared.event.LiveEvent.TheVariants.{Stay};
ghost use Rattle.aps_live.specs.Seats.{IsSeatOf, IsSeatTurn, own_steps, taken};
ghost use Rattle.aps_model.specs.Limits.{last_moment};

use aps_live::{Live, LiveEvent, LiveSeat, LiveTurn};
use aps_model::{CpuId, Nanos};
use std::marker::{Brand, PhantomData};
use std::sync::Wait;

/// The live scheduler of a pool. The call that makes the pool picks it.
pub trait OfLive {
    ghost use Rattle.aps_live.specs.Seats.{LiveData};

    ghost live: { LiveData };
}

impl OfLive for Brand {
    ghost use Rattle.aps_pool.specs.Pool.{no_live};

    ghost live = { no_live };
}

/// A processor, with the right to step it, which workers hand on to one another.
#[derive(Drop)]
pub struct Slot<P: OfLive> {
    seat: LiveSeat,
    of: PhantomData<P>,
    ghost ours: { IsSeatOf P.live seat },
    ghost single: { seat.last ≡ seat.first },
    ghost small: { seat.first < 2 },
}

impl<P: OfLive> Slot<P> {
    /// The slot of the seat's processor.
    pub fn new(seat: LiveSeat) -> Slot<P>
        requires ours { IsSeatOf P.live seat }
        requires single { seat.last ≡ seat.first }
        requires small { seat.first < 2 }
        ensures { result.seat ≡ seat }
    {
        Slot {
            seat,
            of: PhantomData,
        }
    }

    /// The processor.
    pub fn cpu(&self) -> CpuId
        ensures same { result ≡ self.now.seat.first }
        ensures small { result < 2 }
    {
        self.seat.first()
    }

    /// Steps the processor at this moment (ns). The thread that ran goes on if it is picked.
    pub fn step<R: Wait>(&mut self, rt: &R, live: &Live, now: Nanos) -> LiveTurn
        requires live { live.now ≡ P.live }
        requires early { now ≤ last_moment }
        ensures turn { IsSeatTurn self.old.seat self.old.seat.first now Stay result self.new.seat }
        ensures cpu { (self.new.seat.first ≡ self.old.seat.first) × (self.new.seat.last ≡ self.old.seat.last) }
        ensures own { own_steps self.old.seat.first self.old.seat.last self.new.seat.seen.steps
            ≡ own_steps self.old.seat.first self.old.seat.last self.old.seat.seen.steps ++ taken Stay result }
    {
        let cpu = self.cpu();
        live.live_step(rt, &mut self.seat, cpu, now, LiveEvent::Stay)
    }

    /// The seat again.
    pub fn into_seat(self) -> LiveSeat
        ensures same { result ≡ self.seat }
        ensures ours { IsSeatOf P.live result }
        ensures single { result.last ≡ result.first }
    {
        let Slot { seat, of: _ } = self;
        seat
    }
}
