//! Bringing the queues up to date after a step changed threads.
ghost use Rattle.std.specs.Prelude.{◌≡◌, ◌≢◌, ℕ, length, Some, None, true, false};
ghost use Rattle.aps_model.specs.Inherit.{client_of};
ghost use Rattle.aps_core.specs.Seats.{seats_of, who_at, IsRight, IsSeated};
ghost use Rattle.aps_core.specs.Touched.{peer_of, is_alone, is_at_channel, is_exit, woke, IsTouched};
ghost use Rattle.laws_runs.specs.Stamps.{IsStamped};

use super::Machine;
use super::wake::Woken;
use aps_model::{Done, ThreadId};
use aps_ready::Ready;

impl Machine {
    /// The queues have the ready threads after sleepers woke and this thread, if it is one, did its operation, where
    /// they had all whose seat that doesn't touch, and not this thread; or where anything can have changed.
    #[inline(always)]
    pub fn sync(
        &self,
        ready: &mut Ready,
        is_any: bool,
        woken: &Woken,
        own: &Option<ThreadId>,
        done: &Done,
    )
        requires count { length ready.old ≡ length self.now.threads }
        requires stamped { IsStamped self.now.threads self.now.stamps }
        requires tied { is_any ≡ false → is_exit done.now ≡ false → (y : ℕ)
            → (IsTouched woken.now own.now (peer_of done.now) (is_at_channel done.now) self.now.triples y → ⊥)
            → IsRight self.now ready.old y }
        requires out { (y : ℕ) → own.now ≡ Some y → who_at ready.old y ≡ None }
        ensures { ready.new ≡ seats_of self.now }
    {
        if !is_any && is_alone(done) && woken.is_empty() {
            self.sync_own(ready, own);
        } else {
            self.sync_touched(ready, is_any, woken, own, done);
        }
    }

    /// The same, whatever was touched. It stands apart, so that a thread that did nothing with any other has no part in what
    /// this needs.
    #[inline(never)]
    fn sync_touched(
        &self,
        ready: &mut Ready,
        is_any: bool,
        woken: &Woken,
        own: &Option<ThreadId>,
        done: &Done,
    )
        requires count { length ready.old ≡ length self.now.threads }
        requires stamped { IsStamped self.now.threads self.now.stamps }
        requires tied { is_any ≡ false → is_exit done.now ≡ false → (y : ℕ)
            → (IsTouched woken.now own.now (peer_of done.now) (is_at_channel done.now) self.now.triples y → ⊥)
            → IsRight self.now ready.old y }
        requires out { (y : ℕ) → own.now ≡ Some y → who_at ready.old y ≡ None }
        ensures { ready.new ≡ seats_of self.now }
    {
        if is_any || is_exit(done) {
            self.sync_all(ready);
        } else {
            let peer = peer_of(done);
            self.sync_some(ready, woken, own, &peer, is_at_channel(done));
        }
    }

    /// The queues have the ready threads, where every other thread than this one was as it should be, and this one, if it is
    /// one, wasn't in.
    #[inline(always)]
    fn sync_own(&self, ready: &mut Ready, own: &Option<ThreadId>)
        requires count { length ready.old ≡ length self.now.threads }
        requires stamped { IsStamped self.now.threads self.now.stamps }
        requires tied { (y : ℕ) → own.now ≢ Some y → IsRight self.now ready.old y }
        requires out { (y : ℕ) → own.now ≡ Some y → who_at ready.old y ≡ None }
        ensures { ready.new ≡ seats_of self.now }
    {
        if let Some(x) = own {
            self.enter_anew(ready, *x);
        }
    }

    /// The queues have the ready threads, where they had them but for those who woke, the two threads, and the servers if
    /// these count.
    fn sync_some(
        &self,
        ready: &mut Ready,
        woken: &Woken,
        own: &Option<ThreadId>,
        peer: &Option<ThreadId>,
        servers: bool,
    )
        requires count { length ready.old ≡ length self.now.threads }
        requires stamped { IsStamped self.now.threads self.now.stamps }
        requires tied { (y : ℕ) → (IsTouched woken.now own.now peer.now servers self.now.triples y → ⊥) → IsRight self.now ready.old y }
        ensures { ready.new ≡ seats_of self.now }
    {
        self.leave_woken(ready, woken);
        self.leave_one(ready, own);
        self.leave_one(ready, peer);
        self.leave_servers(ready, servers);
        self.enter_woken(ready, woken);
        self.enter_one(ready, own);
        self.enter_one(ready, peer);
        self.enter_servers(ready, servers);
    }

    /// Each of those who woke isn't in, unless it is as it should be. Whoever was as it should be stays so, and whoever wasn't
    /// in isn't in, or is as it should be.
    fn leave_woken(&self, ready: &mut Ready, woken: &Woken)
        ensures own { (x : ℕ) → woke woken.now x ≡ true → IsSeated self.now ready.new x }
        ensures seated { (y : ℕ) → IsSeated self.now ready.old y → IsSeated self.now ready.new y }
        ensures right { (y : ℕ) → IsRight self.now ready.old y → IsRight self.now ready.new y }
        ensures count { length ready.new ≡ length ready.old }
    {
        for x in woken.as_slice() {
            self.leave(ready, *x);
        }
    }

    /// Each of those who woke is as it should be, where before whoever was in was as it should be. That stays so of all.
    fn enter_woken(&self, ready: &mut Ready, woken: &Woken)
        requires count { length ready.old ≡ length self.now.threads }
        requires stamped { IsStamped self.now.threads self.now.stamps }
        requires seated { (y : ℕ) → IsSeated self.now ready.old y }
        ensures own { (x : ℕ) → woke woken.now x ≡ true → IsRight self.now ready.new x }
        ensures seated { (y : ℕ) → IsSeated self.now ready.new y }
        ensures right { (y : ℕ) → IsRight self.now ready.old y → IsRight self.now ready.new y }
        ensures count { length ready.new ≡ length ready.old }
    {
        for x in woken.as_slice() {
            self.enter(ready, *x);
        }
    }

    /// The thread, if this is one, isn't in, unless it is as it should be. Whoever was as it should be stays so, and whoever
    /// wasn't in isn't in, or is as it should be.
    fn leave_one(&self, ready: &mut Ready, one: &Option<ThreadId>)
        ensures own { (x : ℕ) → one.now ≡ Some x → IsSeated self.now ready.new x }
        ensures seated { (y : ℕ) → IsSeated self.now ready.old y → IsSeated self.now ready.new y }
        ensures right { (y : ℕ) → IsRight self.now ready.old y → IsRight self.now ready.new y }
        ensures count { length ready.new ≡ length ready.old }
    {
        if let Some(x) = one {
            self.leave(ready, *x);
        }
    }

    /// The thread, if this is one, is as it should be, where before whoever was in was as it should be. That stays so of all.
    fn enter_one(&self, ready: &mut Ready, one: &Option<ThreadId>)
        requires count { length ready.old ≡ length self.now.threads }
        requires stamped { IsStamped self.now.threads self.now.stamps }
        requires seated { (y : ℕ) → IsSeated self.now ready.old y }
        ensures own { (x : ℕ) → one.now ≡ Some x → IsRight self.now ready.new x }
        ensures seated { (y : ℕ) → IsSeated self.now ready.new y }
        ensures right { (y : ℕ) → IsRight self.now ready.old y → IsRight self.now ready.new y }
        ensures count { length ready.new ≡ length ready.old }
    {
        if let Some(x) = one {
            self.enter(ready, *x);
        }
    }

    /// Each server, if they count, isn't in, unless it is as it should be. Whoever was as it should be stays so, and whoever
    /// wasn't in isn't in, or is as it should be.
    fn leave_servers(&self, ready: &mut Ready, servers: bool)
        ensures own { servers ≡ true → (x : ℕ) → client_of self.now.triples x ≢ None → IsSeated self.now ready.new x }
        ensures seated { (y : ℕ) → IsSeated self.now ready.old y → IsSeated self.now ready.new y }
        ensures right { (y : ℕ) → IsRight self.now ready.old y → IsRight self.now ready.new y }
        ensures count { length ready.new ≡ length ready.old }
    {
        if !servers {
            return;
        }
        let mut next = self.newest_server();
        while let Some(server) = next {
            next = self.older_server(server);
            self.leave(ready, server);
        }
    }

    /// Each server, if they count, is as it should be, where before whoever was in was as it should be. Whoever was as it
    /// should be stays so.
    fn enter_servers(&self, ready: &mut Ready, servers: bool)
        requires count { length ready.old ≡ length self.now.threads }
        requires stamped { IsStamped self.now.threads self.now.stamps }
        requires seated { (y : ℕ) → IsSeated self.now ready.old y }
        ensures own { servers ≡ true → (x : ℕ) → client_of self.now.triples x ≢ None → IsRight self.now ready.new x }
        ensures right { (y : ℕ) → IsRight self.now ready.old y → IsRight self.now ready.new y }
        ensures count { length ready.new ≡ length ready.old }
    {
        if !servers {
            return;
        }
        let mut next = self.newest_server();
        while let Some(server) = next {
            next = self.older_server(server);
            self.enter(ready, server);
        }
    }
}

/// The other thread with whose wait or values the operation had to do.
pub fn peer_of(done: &Done) -> Option<ThreadId>
    ensures { result ≡ peer_of done.now }
{
    match done {
        Done::SendTo(y) => Some(*y),
        Done::ReceiveGot(y) => Some(*y),
        Done::ReplyFreed(y) => Some(*y),
        _ => None,
    }
}

/// Whether the operation had to do with no other thread's wait or values, nor with a message that waits at a channel. Of an
/// exit that isn't known, since it doesn't tell whom it freed.
pub fn is_alone(done: &Done) -> bool
    ensures same { result ≡ is_alone done.now }
    ensures peer { result ≡ true → peer_of done.now ≡ None }
    ensures channel { result ≡ true → is_at_channel done.now ≡ false }
    ensures exit { result ≡ true → is_exit done.now ≡ false }
{
    match done {
        Done::SendBlocked => false,
        Done::SendTo(_) => false,
        Done::ReceiveGot(_) => false,
        Done::ReplyFreed(_) => false,
        Done::Exit => false,
        _ => true,
    }
}

/// Whether the operation may change what waits at a channel, and so what busy servers inherit.
fn is_at_channel(done: &Done) -> bool
    ensures { result ≡ is_at_channel done.now }
{
    matches!(done, Done::SendBlocked | Done::ReceiveGot(_))
}

/// Whether the operation doesn't tell whom it freed.
pub fn is_exit(done: &Done) -> bool
    ensures { result ≡ is_exit done.now }
{
    matches!(done, Done::Exit)
}
