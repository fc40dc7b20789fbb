//! Those who are due, in the order in which they wake.
ghost use Rattle.std.specs.Prelude.{◌≡◌, ◌++◌, ℕ, ◌<◌, ◌≤◌, [], ◌∷◌, length, take, drop, slice_index_or, IfOk, true};
ghost use Rattle.aps_model.specs.Limits.{most_threads};
ghost use Rattle.aps_model.specs.TickWork.{insert_sleeper, is_earlier};

use crate::sleeper::{Sleeper, is_earlier};
use aps_model::NoMemory;
use aps_model::limits::MOST_THREADS;
use std::alloc::Global;
use std::marker::Model;

/// Sleepers in the order in which they wake. There is room for every thread.
#[derive(Drop)]
pub struct Due {
    list: Vec<Sleeper>,
}

impl Model for Due {
    ghost use Rattle.std.specs.Prelude.{ℕ, List};

    ghost Value = { List (ℕ × ℕ) };

    ghost view = { λ d. d.list.items };

    ghost use Rattle.std.specs.Prelude.{◌≤◌, vec_capacity};
    ghost use Rattle.aps_model.specs.Limits.{most_threads};

    ghost invariant = { λ d. most_threads ≤ vec_capacity d.list };
}

impl Due {
    /// Nobody.
    pub fn new(alloc: Global) -> Result<Due, NoMemory>
        ensures { IfOk result (λ d. d ≡ []) }
    {
        Ok(Due {
            list: Vec::with_capacity(alloc, MOST_THREADS)?,
        })
    }

    /// Nobody any longer.
    pub fn clear(&mut self)
        ensures { self.new ≡ [] }
    {
        self.list.clear();
    }

    /// One sleeper more, before the first that wakes after it.
    pub fn insert(&mut self, sleeper: Sleeper)
        requires { length self.old < most_threads }
        ensures { self.new ≡ insert_sleeper sleeper self.old }
    {
        let place = place_of(&self.list, &sleeper);
        let Ok(()) = self.list.insert(place, sleeper) else {
            unreachable!()
        };
    }

    /// How many there are.
    #[inline(always)]
    pub fn len(&self) -> usize
        ensures { result ≡ length self.now }
    {
        self.list.len()
    }

    /// The one at a place.
    #[inline(always)]
    pub fn at(&self, place: usize) -> Sleeper
        requires { place < length self.now }
        ensures { (d : ℕ × ℕ) → result ≡ slice_index_or self.now place d }
    {
        self.list[place]
    }
}

/// How many of the list, from the front, wake before the sleeper.
#[inline(always)]
fn place_of(list: &[Sleeper], sleeper: &Sleeper) -> usize
    ensures within { result ≤ length list.now }
    ensures place { insert_sleeper sleeper.now list.now ≡ take result list.now ++ sleeper.now ∷ drop result list.now }
{
    let mut place = 0;
    while place < list.len() && !is_earlier(sleeper, &list[place]) {
        place += 1;
    }
    place
}
