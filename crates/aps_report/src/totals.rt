//! Sums of time over all entries of a history.
ghost use Rattle.std.specs.Prelude.{◌≡◌, ◌<◌, All, IfOk, slice_index};
ghost use Rattle.aps_model.specs.History.{IsEntry};
ghost use Rattle.aps_model.specs.Limits.{most_partitions, most_threads};
ghost use Rattle.aps_report.specs.Totals.{no_sums, sums_with, HavePlaces, HaveRoom, AreSums};

use crate::zeros::zeros;
use aps_model::limits::{MOST_PARTITIONS, MOST_THREADS};
use aps_model::{Entry, NoMemory};
use std::alloc::Global;
use std::marker::Model;

/// How many nanoseconds were billed to each partition, how many of these as critical, how many
/// each thread ran, and in how many nobody ran.
#[derive(Drop)]
pub struct Totals {
    // A `History` tells no bound of its length, so 64 bits might not do.
    billed: Vec<u128>,
    critical: Vec<u128>,
    ran: Vec<u128>,
    idle: u128,
}

impl Model for Totals {
    ghost use Rattle.aps_report.specs.Totals.{Sums, HavePlaces};

    ghost Value = { Sums };

    ghost view = { λ t. record { billed = t.billed.items; critical = t.critical.items; ran = t.ran.items; idle = t.idle } };

    ghost invariant = { λ t. HavePlaces
        (record { billed = t.billed.items; critical = t.critical.items; ran = t.ran.items; idle = t.idle }) };
}

impl Totals {
    /// The sums over these entries.
    pub fn of(alloc: Global, entries: &[Entry]) -> Result<Totals, NoMemory>
        requires { All IsEntry entries.now }
        ensures { IfOk result (AreSums entries.now) }
    {
        let mut totals = Totals::none(alloc)?;
        for e in entries {
            totals.add(e);
        }
        Ok(totals)
    }

    fn none(alloc: Global) -> Result<Totals, NoMemory>
        ensures { IfOk result (λ t. t ≡ no_sums) }
    {
        Ok(Totals {
            billed: zeros(alloc, MOST_PARTITIONS)?,
            critical: zeros(alloc, MOST_PARTITIONS)?,
            ran: zeros(alloc, MOST_THREADS)?,
            idle: 0,
        })
    }

    fn add(&mut self, e: &Entry)
        requires entry { IsEntry e.now }
        requires room { HaveRoom self.old }
        ensures sums { self.new ≡ sums_with self.old e.now }
        ensures places { HavePlaces self.old }
    {
        let ns = u128::from(e.to - e.from);
        let critical = if e.critical { ns } else { 0 };
        if let Some(p) = e.billed {
            self.billed[p.index()] += ns;
            self.critical[p.index()] += critical;
        }
        match e.ran {
            Some(x) => self.ran[x.index()] += ns,
            None => self.idle += ns,
        }
    }

    pub fn billed(&self, id: usize) -> u128
        requires { id < most_partitions }
        ensures { result ≡ slice_index self.now.billed id }
    {
        self.billed[id]
    }

    pub fn critical(&self, id: usize) -> u128
        requires { id < most_partitions }
        ensures { result ≡ slice_index self.now.critical id }
    {
        self.critical[id]
    }

    pub fn ran(&self, id: usize) -> u128
        requires { id < most_threads }
        ensures { result ≡ slice_index self.now.ran id }
    {
        self.ran[id]
    }

    pub fn idle(&self) -> u128
        ensures { result ≡ self.now.idle }
    {
        self.idle
    }
}
