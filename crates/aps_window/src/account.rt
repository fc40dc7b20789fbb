//! The account of one partition.
ghost use Rattle.std.specs.Prelude.{◌≡◌, ◌+◌, ◌<◌, ◌≤◌, length, replicate, IfOk};
ghost use Rattle.std.specs.List.{All};
ghost use Rattle.circular_buffer.specs.Buffer.{buffer};
ghost use Rattle.aps_window.specs.Slots.{no_slot, no_slots, slot_at, slots_billed, slots_total, IsSlot};
ghost use Rattle.aps_window.specs.Account.{IsAccount, account_of, account_moved, account_resized};
ghost use Rattle.aps_model.specs.Limits.{longest_window, most_time_of_tick};

use crate::slot::Slot;
use aps_model::NoMemory;
use aps_model::limits::LONGEST_WINDOW;
use circular_buffer::HeapCircularBuffer;
use std::alloc::Global;

/// How many ticks back a bill is kept.
pub const SLOTS: usize = LONGEST_WINDOW;

/// A partition's slots, that of the current tick first, and the total of those that count.
#[derive(Drop)]
pub struct Account {
    pub ring: HeapCircularBuffer<Slot>,
    pub total: Slot,
}

/// 400 slots with no bill.
fn empty_ring(alloc: Global) -> Result<HeapCircularBuffer<Slot>, NoMemory>
    ensures { IfOk result (λ ring. ring ≡ buffer (replicate longest_window no_slot) longest_window) }
{
    let mut ring = HeapCircularBuffer::with_capacity(alloc, SLOTS)?;
    for count in 0..SLOTS {
        ring.push_back(Slot::EMPTY);
    }
    Ok(ring)
}

/// Bills so many ns in the slot at a place.
fn bill_slot(ring: &mut HeapCircularBuffer<Slot>, age: usize, ns: u64, critical: bool)
    requires inside { age < length ring.old.items }
    requires billed { (slot_at ring.old.items age).billed + ns ≤ most_time_of_tick }
    requires critical { (slot_at ring.old.items age).critical ≤ (slot_at ring.old.items age).billed }
    ensures { ring.new ≡ buffer (slots_billed ring.old.items age ns critical) ring.old.capacity }
{
    if let Some(slot) = ring.get_mut(age) {
        slot.bill(ns, critical);
    }
}

impl Account {
    /// An account with no bill.
    pub fn new(alloc: Global) -> Result<Account, NoMemory>
        ensures { IfOk result (λ account. account ≡ record { ring = buffer no_slots longest_window; total = no_slot }) }
    {
        Ok(Account {
            ring: empty_ring(alloc)?,
            total: Slot::EMPTY,
        })
    }

    /// The slot of the tick so many ticks ago.
    fn slot(&self, age: usize) -> Slot
        requires { age < length self.now.ring.items }
        ensures { result ≡ slot_at self.now.ring.items age }
    {
        match self.ring.get(age) {
            Some(slot) => *slot,
            None => unreachable!(),
        }
    }

    /// Bills so many ns in the tick so many ticks ago. The total has them only where that tick counts.
    pub fn bill(&mut self, age: usize, ns: u64, critical: bool, span: usize)
        requires account { IsAccount span self.old }
        requires kept { age < longest_window }
        requires span { span ≤ longest_window }
        requires fits { (slot_at self.old.ring.items age).billed + ns ≤ most_time_of_tick }
        ensures { self.new ≡ account_of span (slots_billed self.old.ring.items age ns critical) }
    {
        bill_slot(&mut self.ring, age, ns, critical);
        if age < span {
            self.total.bill(ns, critical);
        }
    }

    /// Goes on by one tick: the total loses the slot that counts no more, and the oldest slot is gone.
    fn rotate(&mut self, span: usize)
        requires account { IsAccount span self.old }
        requires some { 0 < span }
        requires span { span ≤ longest_window }
        ensures { self.new ≡ account_moved 1 span self.old }
    {
        let leaving = self.slot(span - 1);
        self.total.billed -= leaving.billed;
        self.total.critical -= leaving.critical;
        self.ring.push_front(Slot::EMPTY);
    }

    /// Goes on by so many ticks.
    pub fn advance(&mut self, ticks: usize, span: usize)
        requires account { IsAccount span self.old }
        requires some { 0 < span }
        requires span { span ≤ longest_window }
        ensures { self.new ≡ account_moved ticks span self.old }
    {
        for count in 0..ticks {
            self.rotate(span);
        }
    }

    /// Counts this number of slots, by a sum afresh.
    pub fn resize(&mut self, span: usize)
        requires capacity { self.old.ring.capacity ≡ longest_window }
        requires full { length self.old.ring.items ≡ longest_window }
        requires small { All IsSlot self.old.ring.items }
        requires span { span ≤ longest_window }
        ensures { self.new ≡ account_resized span self.old }
    {
        let mut total = Slot::EMPTY;
        for age in 0..span {
            let slot = self.slot(age);
            total.billed += slot.billed;
            total.critical += slot.critical;
        }
        self.total = total;
    }
}
