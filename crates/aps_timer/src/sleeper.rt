//! A thread that sleeps, and who goes before whom.
ghost use Rattle.std.specs.Prelude.{◌≡◌};
ghost use Rattle.aps_model.specs.TickWork.{is_earlier};
ghost use Rattle.aps_timer.specs.Order.{wakes_before, earlier_sleeper, wakes_by};

use aps_model::{Nanos, ThreadId};
use std::marker::Model;

/// A thread that sleeps, and the moment until which it does. Contracts see the two as a pair, the moment first.
#[derive(Clone, Copy, PartialEq, Eq)]
pub struct Sleeper {
    pub until: Nanos,
    pub thread: ThreadId,
}

impl Model for Sleeper {
    ghost use Rattle.std.specs.Prelude.{ℕ};

    ghost Value = { ℕ × ℕ };

    ghost view = { λ s. (s.until, s.thread) };

    ghost inverse = { λ s. record { until = s.0; thread = s.1 } };
}

/// Whether `a` wakes before `b`: earlier, or at the same moment with the lower number.
pub fn is_earlier(a: &Sleeper, b: &Sleeper) -> bool
    ensures { result ≡ is_earlier a.now b.now }
{
    a.until < b.until || (a.until == b.until && a.thread.index() < b.thread.index())
}

/// Whether one sleeper, if there is one, goes before another; where there is none it comes last.
fn goes_before(a: &Option<Sleeper>, b: &Option<Sleeper>) -> bool
    ensures { result ≡ wakes_before a.now b.now }
{
    match (a, b) {
        (Some(one), Some(other)) => is_earlier(one, other),
        (Some(_), None) => true,
        (None, _) => false,
    }
}

/// Whether there is a sleeper, and it wakes at or before this moment.
pub fn wakes_by(sleeper: &Option<Sleeper>, moment: Nanos) -> bool
    ensures { result ≡ wakes_by sleeper.now moment }
{
    match sleeper {
        Some(sleeper) => sleeper.until <= moment,
        None => false,
    }
}

/// The one of two that goes first.
pub fn first_of(a: Option<Sleeper>, b: Option<Sleeper>) -> Option<Sleeper>
    ensures { result ≡ earlier_sleeper a b }
{
    if goes_before(&b, &a) { b } else { a }
}
