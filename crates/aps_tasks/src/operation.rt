//! What an operation takes, and what comes after it.
ghost use Rattle.std.specs.Prelude.{◌≡◌, ◌*◌, ◌≤◌, ◌<◌};
ghost use Rattle.aps_model.specs.Limits.{last_moment, longest_tick};
ghost use Rattle.aps_model.specs.Operation.{duration, is_slice_over, place_after, state_in};
ghost use Rattle.aps_tasks.specs.Calls.{is_over, left_after, sleep_end};
ghost use Rattle.aps_tasks.specs.Kept.{IsLeft, IsShort};

use aps_model::{Nanos, Op, Policy, Shape, State};

/// How many ticks a round-robin thread runs before it gets a new stamp.
const SLICE_TICKS: u64 = 4;

/// How long an operation takes, in ns; nothing where it never ends.
pub fn duration(shape: &Shape, op: &Op) -> Option<Nanos>
    ensures same { result ≡ duration shape.now op.now }
    ensures left { IsLeft op.now result }
{
    match op {
        Op::Run(ns) => Some(*ns),
        Op::Forever => None,
        Op::Sleep(_) => Some(0),
        _ => Some(shape.call_ns),
    }
}

/// The moment until which a thread sleeps that enters the operation now, if that is a sleep.
pub fn sleep_end(op: &Op, now: Nanos) -> Option<Nanos>
    requires now { now ≤ last_moment }
    requires short { IsShort op.now }
    ensures { result ≡ sleep_end op.now now }
{
    match op {
        Op::Sleep(ns) => Some(now + *ns),
        _ => None,
    }
}

/// The state of a thread that enters an operation now: it sleeps, or it is in the state that is named.
pub fn state_in(op: &Op, now: Nanos, otherwise: State) -> State
    requires now { now ≤ last_moment }
    requires short { IsShort op.now }
    ensures { result ≡ state_in op.now now otherwise }
{
    match op {
        Op::Sleep(ns) => State::Sleeping(now + *ns),
        _ => otherwise,
    }
}

/// The place of the operation after this one.
pub fn place_after(op: &Op, place: u16) -> u16
    requires { place < 65535 }
    ensures { result ≡ place_after op.now place }
{
    match op {
        Op::Repeat => 0,
        _ => place + 1,
    }
}

/// What is left of an operation after so many ns of it; nothing where less was left.
pub fn left_after(left: &Option<Nanos>, ns: Nanos) -> Option<Nanos>
    ensures { result ≡ left_after left.now ns }
{
    match left {
        Some(most) => Some(most.saturating_sub(ns)),
        None => None,
    }
}

/// Whether nothing is left of an operation.
pub fn is_over(left: &Option<Nanos>) -> bool
    ensures { result ≡ is_over left.now }
{
    matches!(left, Some(0))
}

/// Whether a thread that ran for so long since its stamp is to have a new one.
pub fn is_slice_over(shape: &Shape, policy: Policy, since: Nanos) -> bool
    requires { shape.now.tick ≤ longest_tick }
    ensures { result ≡ is_slice_over shape.now policy since }
{
    (policy == Policy::Rr) & (SLICE_TICKS * shape.tick <= since)
}
