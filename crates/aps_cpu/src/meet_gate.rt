//! A gate by which a test sees that two threads were under way at once.
use crate::gate::Gate;
use aps_lock::CpuSeat;
use aps_model::CpuId;
use std::sync::Wait;
use std::sync::atomic::Ordering::SeqCst;
use std::sync::atomic::{AtomicBool, AtomicU64};
use std::thread;

/// After so many looks in vain a hold of a new gate gives up.
const MOST_LOOKS: u32 = 50_000_000;

/// A gate by which a test sees that two threads were under way at once. It holds the first entry of processor 0 until
/// processor 1 enters a second time, and the second entry of processor 1 until processor 0 has entered. Each entry is
/// counted before its hold.
#[derive(Drop)]
pub struct MeetGate {
    entries_of_0: AtomicU64,
    entries_of_1: AtomicU64,
    seen_at_first: AtomicU64,
    grew: AtomicBool,
    gave_up: AtomicBool,
    passed_0: AtomicBool,
    passed_1: AtomicBool,
    most_looks: u32,
}

impl MeetGate {
    /// A gate that nobody has entered.
    pub fn new() -> MeetGate {
        MeetGate::with_looks(MOST_LOOKS)
    }

    /// The same, where a hold gives up after so many looks in vain.
    pub fn with_looks(most_looks: u32) -> MeetGate {
        MeetGate {
            entries_of_0: AtomicU64::new(0),
            entries_of_1: AtomicU64::new(0),
            seen_at_first: AtomicU64::new(0),
            grew: AtomicBool::new(false),
            gave_up: AtomicBool::new(false),
            passed_0: AtomicBool::new(false),
            passed_1: AtomicBool::new(false),
            most_looks,
        }
    }

    /// Whether a hold gave up.
    pub fn gave_up(&self) -> bool {
        self.gave_up.load(SeqCst)
    }

    /// Whether both holds ended without giving up, and processor 1's seat had seen more entries at its second entry
    /// than at its first.
    pub fn met(&self) -> bool {
        !self.gave_up()
            && self.passed_0.load(SeqCst)
            && self.passed_1.load(SeqCst)
            && self.grew.load(SeqCst)
    }

    /// Holds the caller until the count is so high, and tells how that ended.
    fn hold(&self, count: &AtomicU64, at_least: u64, passed: &AtomicBool) {
        if reaches(count, at_least, self.most_looks) {
            passed.store(true, SeqCst);
        } else {
            self.gave_up.store(true, SeqCst);
        }
    }

    /// Processor 0 enters.
    pub fn enter_0(&self) {
        if self.entries_of_0.fetch_add(1, SeqCst) == 0 {
            self.hold(&self.entries_of_1, 2, &self.passed_0);
        }
    }

    /// Processor 1 enters, whose seat has seen so many entries.
    pub fn enter_1(&self, seen: u64) {
        match self.entries_of_1.fetch_add(1, SeqCst) {
            0 => self.seen_at_first.store(seen, SeqCst),
            1 => {
                let grew = seen > self.seen_at_first.load(SeqCst);
                self.grew.store(grew, SeqCst);
                self.hold(&self.entries_of_0, 1, &self.passed_1);
            }
            _ => {}
        }
    }
}

/// Looks at the count until it is so high, but no more than so often, and tells whether it was.
fn reaches(count: &AtomicU64, at_least: u64, most_looks: u32) -> bool {
    for _ in 0..most_looks {
        if count.load(SeqCst) >= at_least {
            return true;
        }
        thread::yield_now();
    }
    false
}

impl Gate for MeetGate {
    fn enter<R: Wait>(&self, _rt: &R, seat: &CpuSeat, cpu: CpuId) {
        match cpu.index() {
            0 => self.enter_0(),
            1 => self.enter_1(seat.seen_len()),
            _ => {}
        }
    }
}
