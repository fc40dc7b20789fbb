//! How long a thread waits until it runs.
ghost use Rattle.std.specs.Prelude.{◌≡◌, ℕ, ◌+◌};
ghost use Rattle.view_lives.specs.Few.{AreFew, HasRoomForOne};
ghost use Rattle.view_lives.specs.Waits as spec;

use crate::cycle::Cycle;
use crate::doing::Doing;
use crate::life::{Life, Segment};
use crate::tally::Tally;
use aps_model::Nanos;

/// What the next segment of a life tells of a wait: there was none; or the thread was ready from this moment on for so long (ns)
/// after it woke, or after it ran.
#[derive(Clone, Copy, PartialEq, Eq)]
pub enum Wait {
    No,
    Woken { begin: Nanos, ns: Nanos },
    Preempted { begin: Nanos, ns: Nanos },
}

/// The waits of a life, with what the next segment is looked at by: the last one, and whether that stands behind one in which
/// the thread ran.
#[derive(Clone, Copy, PartialEq, Eq)]
pub struct Waits {
    /// Ready after sleep or a wait for others, to running; 0 where it runs at once.
    pub wake: Tally,
    /// Ready after running, to running.
    pub preempted: Tally,
    /// The last segment, if there is one.
    pub last: Option<Segment>,
    /// Whether the last segment stands behind one in which the thread ran.
    pub behind_running: bool,
}

impl Waits {
    /// The waits of this life.
    pub fn of(life: &Life) -> Waits
        ensures { result ≡ spec.waits_in life.now }
    {
        let mut waits = Waits {
            wake: Tally::none(),
            preempted: Tally::none(),
            last: None,
            behind_running: false,
        };
        for segment in life.segments() {
            waits = waits.with(segment);
        }
        waits
    }

    /// The waits with one segment more.
    fn with(self, segment: &Segment) -> Waits
        requires wake { HasRoomForOne self.wake }
        requires preempted { HasRoomForOne self.preempted }
        ensures same { result ≡ spec.with_next self segment.now }
        ensures few_wakes { (n : ℕ) → AreFew n self.wake → AreFew (n + 1) result.wake }
        ensures few_preempted { (n : ℕ) → AreFew n self.preempted → AreFew (n + 1) result.preempted }
    {
        let wait = wait_at(&self.last, self.behind_running, segment);
        Waits {
            wake: with_wake(self.wake, &wait),
            preempted: with_preempted(self.preempted, &wait),
            last: Some(*segment),
            behind_running: is_running_last(&self.last),
        }
    }
}

/// The tally of wakes with this wait, if it is one.
fn with_wake(tally: Tally, wait: &Wait) -> Tally
    requires { HasRoomForOne tally }
    ensures same { result ≡ spec.with_wake tally wait.now }
    ensures few { (n : ℕ) → AreFew n tally → AreFew (n + 1) result }
{
    match wait {
        Wait::Woken { begin, ns } => tally.with(*begin, *ns),
        _ => tally,
    }
}

/// The tally of preemptions with this wait, if it is one.
fn with_preempted(tally: Tally, wait: &Wait) -> Tally
    requires { HasRoomForOne tally }
    ensures same { result ≡ spec.with_preempted tally wait.now }
    ensures few { (n : ℕ) → AreFew n tally → AreFew (n + 1) result }
{
    match wait {
        Wait::Preempted { begin, ns } => tally.with(*begin, *ns),
        _ => tally,
    }
}

/// What this segment tells of a wait, behind the last one.
fn wait_at(last: &Option<Segment>, behind_running: bool, next: &Segment) -> Wait
    ensures { result ≡ spec.wait_at last.now behind_running next.now }
{
    match last {
        None => woken_if_running(next),
        Some(segment) => match segment.doing {
            Doing::Ready => waited(segment, behind_running),
            Doing::Running { .. } => Wait::No,
            _ => woken_if_running(next),
        },
    }
}

/// The wait that a segment is in which the thread was ready.
fn waited(segment: &Segment, behind_running: bool) -> Wait
    ensures { result ≡ spec.waited segment.now behind_running }
{
    let begin = segment.from;
    let ns = segment.to.saturating_sub(begin);
    if behind_running {
        Wait::Preempted { begin, ns }
    } else {
        Wait::Woken { begin, ns }
    }
}

/// A wait of no time, where the thread runs in this segment.
fn woken_if_running(segment: &Segment) -> Wait
    ensures { result ≡ spec.woken_if_running segment.now }
{
    if is_running(&segment.doing) {
        Wait::Woken {
            begin: segment.from,
            ns: 0,
        }
    } else {
        Wait::No
    }
}

/// Whether the thread ran in the last segment.
fn is_running_last(last: &Option<Segment>) -> bool
    ensures { result ≡ spec.is_running_last last.now }
{
    match last {
        Some(segment) => is_running(&segment.doing),
        None => false,
    }
}

fn is_running(doing: &Doing) -> bool
    ensures { result ≡ spec.is_running doing.now }
{
    matches!(doing, Doing::Running { .. })
}

/// The tally of these cycles, from their begin to their end.
pub fn tally_cycles(cycles: &[Cycle]) -> Tally
    ensures { result ≡ spec.cycle_tally cycles.now }
{
    let mut tally = Tally::none();
    for cycle in cycles {
        tally = tally.with(cycle.begin, cycle.end.saturating_sub(cycle.begin));
    }
    tally
}
