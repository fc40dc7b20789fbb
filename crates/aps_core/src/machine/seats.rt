//! Which threads belong into the queues of ready threads, and putting one of them there.
ghost use Rattle.std.specs.Prelude.{◌≡◌, ℕ, length, slice_set, IfOk, Some, None};
ghost use Rattle.aps_core.specs.Seats.{seat_at, seats_of, who_at, IsRight, IsSeated};
ghost use Rattle.laws_runs.specs.Stamps.{IsStamped};

use super::Machine;
use aps_model::{Contender, NoMemory, State, ThreadId};
use aps_ready::Ready;
use std::alloc::Global;

impl Machine {
    /// The thread as a contender, if it is ready.
    #[inline(always)]
    pub fn seat_at(&self, x: ThreadId) -> Option<Contender>
        ensures { result ≡ seat_at self.now x }
    {
        let task = self.task(x);
        match task.state {
            State::Ready => Some(Contender {
                thread: x,
                facts: self.facts_of(x),
                stamp: task.stamp,
            }),
            _ => None,
        }
    }

    /// The ready threads in their queues, for which memory is taken.
    pub fn start_ready(&self, alloc: Global) -> Result<Ready, NoMemory>
        requires { IsStamped self.now.threads self.now.stamps }
        ensures { IfOk result (λ ready. ready ≡ seats_of self.now) }
    {
        let mut ready = Ready::new(alloc, self.count() as u16)?;
        self.sync_all(&mut ready);
        Ok(ready)
    }

    /// The queues have the ready threads, whatever they had. A thread that is in as it should be isn't touched.
    pub fn sync_all(&self, ready: &mut Ready)
        requires count { length ready.old ≡ length self.now.threads }
        requires stamped { IsStamped self.now.threads self.now.stamps }
        ensures { ready.new ≡ seats_of self.now }
    {
        'leave: for x in 0..self.count() {
            self.leave(ready, ThreadId::at(x));
        }
        'enter: for x in 0..self.count() {
            self.enter(ready, ThreadId::at(x));
        }
    }

    /// The thread isn't in, unless it is as it should be. One that stays ready with its stamp is as it should be.
    #[inline(always)]
    pub fn leave(&self, ready: &mut Ready, x: ThreadId)
        ensures own { IsSeated self.now ready.new x }
        ensures seated { (y : ℕ) → IsSeated self.now ready.old y → IsSeated self.now ready.new y }
        ensures right { (y : ℕ) → IsRight self.now ready.old y → IsRight self.now ready.new y }
        ensures count { length ready.new ≡ length ready.old }
    {
        if let Some(seat) = ready.at(x) {
            self.leave_seat(ready, x, &seat);
        }
    }

    /// The thread, which is in with these values, isn't in, unless it is as it should be. Where its inherited values alone
    /// changed it is given these.
    fn leave_seat(&self, ready: &mut Ready, x: ThreadId, seat: &Contender)
        requires seat { who_at ready.old x ≡ Some seat.now }
        requires thread { seat.now.thread ≡ x }
        ensures own { IsSeated self.now ready.new x }
        ensures seated { (y : ℕ) → IsSeated self.now ready.old y → IsSeated self.now ready.new y }
        ensures right { (y : ℕ) → IsRight self.now ready.old y → IsRight self.now ready.new y }
        ensures count { length ready.new ≡ length ready.old }
    {
        match self.seat_at(x) {
            Some(now) if now == *seat => {}
            Some(now) if now.stamp == seat.stamp => change_seat(ready, seat, &now),
            _ => ready.take(x),
        }
    }

    /// The thread is in, if it should be, where it isn't in otherwise.
    pub fn enter(&self, ready: &mut Ready, x: ThreadId)
        requires count { length ready.old ≡ length self.now.threads }
        requires stamped { IsStamped self.now.threads self.now.stamps }
        requires seated { (y : ℕ) → IsSeated self.now ready.old y }
        ensures own { IsRight self.now ready.new x }
        ensures seated { (y : ℕ) → IsSeated self.now ready.new y }
        ensures right { (y : ℕ) → IsRight self.now ready.old y → IsRight self.now ready.new y }
        ensures count { length ready.new ≡ length ready.old }
    {
        if ready.at(x).is_some() {
            return;
        }
        self.enter_anew(ready, x);
    }

    /// The thread, which isn't in, is in, if it should be.
    #[inline(always)]
    pub fn enter_anew(&self, ready: &mut Ready, x: ThreadId)
        requires out { who_at ready.old x ≡ None }
        requires count { length ready.old ≡ length self.now.threads }
        requires stamped { IsStamped self.now.threads self.now.stamps }
        requires seated { (y : ℕ) → IsSeated self.now ready.old y }
        ensures own { IsRight self.now ready.new x }
        ensures seated { (y : ℕ) → IsSeated self.now ready.new y }
        ensures right { (y : ℕ) → IsRight self.now ready.old y → IsRight self.now ready.new y }
        ensures count { length ready.new ≡ length ready.old }
    {
        if let Some(seat) = self.seat_at(x) {
            ready.put(x, seat.facts, seat.stamp);
        }
    }
}

/// The thread, which is in with these values, is in with others, and with the stamp that it has.
fn change_seat(ready: &mut Ready, seat: &Contender, now: &Contender)
    requires seat { who_at ready.old now.now.thread ≡ Some seat.now }
    requires thread { seat.now.thread ≡ now.now.thread }
    requires stamp { seat.now.stamp ≡ now.now.stamp }
    ensures { ready.new ≡ slice_set ready.old now.now.thread (Some now.now) }
{
    ready.change(now.thread, now.facts);
}
