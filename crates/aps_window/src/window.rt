//! The window, and the calls that read and change it.
ghost use Rattle.std.specs.Prelude.{◌≡◌, ℕ, ◌+◌, ◌-◌, ◌<◌, ◌≤◌, ◌⊎◌, List, [], ◌∷◌, IfOk};
ghost use Rattle.aps_window.specs.Bills.{Bill, bills_used, bills_critical};
ghost use Rattle.aps_window.specs.StandsFor.{StandsFor};
ghost use Rattle.aps_window.specs.Window.{advanced, window_billed, billed_on, opened, resized, rotated, total_of};
ghost use Rattle.aps_model.specs.Limits.{last_tick, longest_window, most_critical, most_time_of_tick, shortest_window};

use crate::account::{Account, SLOTS};
use aps_model::limits::MOST_PARTITIONS;
use aps_model::{NoMemory, PartitionId};
use std::alloc::Global;
use std::marker::Model;

/// What each of 32 partitions was billed in each of the last 400 ticks, and the sums of the last `span` of them.
/// Contracts see the current tick, the span and the slots, and say what each call does to every list of bills that these
/// stand for. Room is taken when a window is made; no other call takes memory.
pub struct Window {
    tick: u32,
    span: usize,
    /// One more than the greatest partition that was ever billed: the accounts from there on have no bill.
    in_use: usize,
    accounts: Vec<Account>,
}

// Written out, so that it is proved here alone: a derived drop is proved again in each crate that lets a value go.
impl Drop for Window {
    fn drop(self) {
        let Self {
            tick: _,
            span: _,
            in_use: _,
            accounts: _,
        } = self;
    }
}

impl Model for Window {
    ghost use Rattle.aps_window.specs.Window.{Window as Plain};

    ghost Value = { Plain };

    ghost use Rattle.aps_window.specs.WindowView.{window_of, Keeps};

    ghost view = { window_of };

    ghost invariant = { Keeps };
}

impl Window {
    /// At tick 0 with no bills, for 32 partitions; the last `window` ticks count, 8 to 400. `NoMemory` comes where there
    /// is no room for 400 slots of each partition.
    pub fn new(alloc: Global, window: u16) -> Result<Window, NoMemory>
        requires least { shortest_window ≤ window }
        requires most { window ≤ longest_window }
        ensures same { IfOk result (λ w. w ≡ opened window) }
        ensures stands { IfOk result (λ w. StandsFor w []) }
    {
        let mut accounts = Vec::with_capacity(alloc, MOST_PARTITIONS)?;
        for count in 0..MOST_PARTITIONS {
            accounts.push(Account::new(alloc)?)?;
        }
        Ok(Window {
            tick: 0,
            span: window as usize,
            in_use: 0,
            accounts,
        })
    }

    /// The current tick.
    pub fn tick(&self) -> u32
        ensures same { result ≡ self.now.tick }
        ensures few { result ≤ last_tick }
    {
        self.tick
    }

    /// Bills so many ns to a partition in a tick, which is the current one or the one before. Condition: the bills of
    /// the partition in that tick, this one included, sum to at most 160,000,000 ns.
    pub fn bill(&mut self, p: PartitionId, tick: u32, ns: u64, critical: bool)
        requires recent { (tick ≡ self.old.tick) ⊎ (tick + 1 ≡ self.old.tick) }
        requires fits { billed_on self.old p tick + ns ≤ most_time_of_tick }
        ensures same { self.new ≡ window_billed self.old p tick ns critical }
        ensures stands { (bills : List Bill) → StandsFor self.old bills
            → StandsFor self.new (record { partition = p; tick = tick; ns = ns; critical = critical } ∷ bills) }
    {
        self.bill_at(p, tick, ns, critical);
    }

    /// Bills so many ns to a partition in one of the last 400 ticks, the current one included. Condition: the bills of
    /// the partition in that tick, this one included, sum to at most 160,000,000 ns.
    pub fn bill_at(&mut self, p: PartitionId, tick: u32, ns: u64, critical: bool)
        requires past { tick ≤ self.old.tick }
        requires kept { self.old.tick < tick + longest_window }
        requires fits { billed_on self.old p tick + ns ≤ most_time_of_tick }
        ensures same { self.new ≡ window_billed self.old p tick ns critical }
        ensures stands { (bills : List Bill) → StandsFor self.old bills
            → StandsFor self.new (record { partition = p; tick = tick; ns = ns; critical = critical } ∷ bills) }
    {
        let age = (self.tick - tick) as usize;
        let place = p.index();
        self.in_use = self.in_use.max(place + 1);
        let account = &mut self.accounts[place];
        account.bill(age, ns, critical, self.span);
    }

    /// Goes on to the next tick. Condition: the current one is below 100,000,000.
    pub fn rotate(&mut self)
        requires { self.old.tick < last_tick }
        ensures same { self.new ≡ rotated self.old }
        ensures stands { (bills : List Bill) → StandsFor self.old bills → StandsFor self.new bills }
    {
        self.advance(1);
    }

    /// Goes on by so many ticks, as that many times `rotate`. Condition: the tick that is then current is at most
    /// 100,000,000.
    #[inline(never)]
    pub fn advance(&mut self, ticks: u32)
        requires { self.old.tick + ticks ≤ last_tick }
        ensures same { self.new ≡ advanced ticks self.old }
        ensures stands { (bills : List Bill) → StandsFor self.old bills → StandsFor self.new bills }
    {
        let moves = (ticks as usize).min(SLOTS);
        for p in 0..self.in_use {
            let account = &mut self.accounts[p];
            account.advance(moves, self.span);
        }
        self.tick += ticks;
    }

    /// From now on the last `window` ticks count, 8 to 400. Bills up to 400 ticks back count again where it grows.
    pub fn resize(&mut self, window: u16)
        requires least { shortest_window ≤ window }
        requires most { window ≤ longest_window }
        ensures same { self.new ≡ resized window self.old }
        ensures stands { (bills : List Bill) → StandsFor self.old bills → StandsFor self.new bills }
    {
        let span = window as usize;
        for p in 0..self.in_use {
            let account = &mut self.accounts[p];
            account.resize(span);
        }
        self.span = span;
    }

    /// The ns of all bills of a partition in the last `window` ticks, the current one included.
    pub fn used(&self, p: PartitionId) -> u64
        ensures same { result ≡ (total_of self.now p).billed }
        ensures stands { (bills : List Bill) → StandsFor self.now bills
            → result ≡ bills_used bills p (self.now.tick + 1 - self.now.span) (self.now.tick + 1) }
        ensures small { result ≤ most_critical }
    {
        self.accounts[p.index()].total.billed
    }

    /// The ns of all critical bills of a partition in the last `window` ticks, the current one included.
    pub fn critical_used(&self, p: PartitionId) -> u64
        ensures same { result ≡ (total_of self.now p).critical }
        ensures stands { (bills : List Bill) → StandsFor self.now bills
            → result ≡ bills_critical bills p (self.now.tick + 1 - self.now.span) (self.now.tick + 1) }
        ensures within { result ≤ (total_of self.now p).billed }
    {
        self.accounts[p.index()].total.critical
    }
}
