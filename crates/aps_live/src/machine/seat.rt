//! A thread that becomes ready, or ceases to be.
ghost use Rattle.std.specs.Prelude.{◌≡◌, ◌<◌, All, length, slice_index_or, slice_set, true, false};
ghost use Rattle.aps_ready.specs.Ready.{IsStampFree};
ghost use Rattle.aps_live.specs.LiveState.{no_live_thread};
ghost use Rattle.aps_live.specs.LiveStep.{is_waking};
ghost use Rattle.aps_live.specs.Machine.{row_of};

use crate::thread::{Doing, LiveThread};
use aps_model::ThreadId;
use aps_ready::Ready;

/// A thread that isn't ready stands so from now on.
pub fn seat(threads: &mut Vec<LiveThread>, ready: &mut Ready, x: ThreadId, thread: LiveThread)
    requires row { ready.old ≡ row_of threads.old.items }
    requires inside { x < length threads.old.items }
    requires out { is_waking (slice_index_or threads.old.items x no_live_thread).doing ≡ false }
    requires number { thread.contender.thread ≡ x }
    requires stamp { All (IsStampFree thread.contender.stamp) ready.old }
    ensures threads { threads.new.items ≡ slice_set threads.old.items x thread }
    ensures row { ready.new ≡ row_of threads.new.items }
{
    let contender = thread.contender;
    let is_ready = is_waking(thread.doing);
    threads[x.index()] = thread;
    if is_ready {
        ready.put(x, contender.facts, contender.stamp);
    }
}

/// A thread that is ready stands so from now on, and isn't ready any more.
pub fn unseat(threads: &mut Vec<LiveThread>, ready: &mut Ready, x: ThreadId, thread: LiveThread)
    requires row { ready.old ≡ row_of threads.old.items }
    requires inside { x < length threads.old.items }
    requires present { is_waking (slice_index_or threads.old.items x no_live_thread).doing ≡ true }
    requires gone { is_waking thread.doing ≡ false }
    ensures threads { threads.new.items ≡ slice_set threads.old.items x thread }
    ensures row { ready.new ≡ row_of threads.new.items }
{
    threads[x.index()] = thread;
    ready.take(x);
}

/// Whether a thread that does this is ready.
fn is_waking(doing: Doing) -> bool
    ensures { result ≡ is_waking doing }
{
    match doing {
        Doing::Waiting => false,
        Doing::Ready => true,
        Doing::Running(_) => false,
    }
}
