//! A bell at which drivers sleep. A sleep ends by itself too, so that a ring that is lost costs time only.
use std::sync::Wait;
use std::sync::atomic::AtomicU64;
use std::sync::atomic::Ordering::SeqCst;
use std::time::Duration;

/// So many ms a sleep takes at most.
const LONGEST_SLEEP: u64 = 100;

/// Each ring that finds somebody at the bell changes its number.
#[derive(Drop)]
pub(crate) struct Bell {
    rings: AtomicU64,
    sleepers: AtomicU64,
}

/// Somebody who is about to sleep. It is dropped where it doesn't sleep after all.
pub(crate) struct Sleeper<'a> {
    bell: &'a Bell,
    rings: u64,
}

impl Bell {
    /// A bell with nobody at it.
    pub(crate) fn new() -> Bell {
        Bell {
            rings: AtomicU64::new(0),
            sleepers: AtomicU64::new(0),
        }
    }

    /// Announces that the caller is about to sleep. What it waits for it has to test after this call, and before it sleeps.
    pub(crate) fn announce(&self) -> Sleeper<'_> {
        self.sleepers.fetch_add(1, SeqCst);
        Sleeper {
            bell: self,
            rings: self.rings.load(SeqCst),
        }
    }

    /// Wakes one sleeper. Whoever has announced a sleep by now doesn't begin it.
    pub(crate) fn ring(&self) {
        if self.sleepers.load(SeqCst) != 0 {
            self.rings.fetch_add(1, SeqCst);
            self.rings.wake_one();
        }
    }

    /// Wakes all sleepers.
    pub(crate) fn ring_all(&self) {
        if self.sleepers.load(SeqCst) != 0 {
            self.rings.fetch_add(1, SeqCst);
            self.rings.wake_all();
        }
    }
}

impl Sleeper<'_> {
    /// Sleeps until the bell rings, but no longer than a while, and tells whether it rang.
    pub(crate) fn sleep<R: Wait>(self, rt: &R) -> bool {
        let rings = &self.bell.rings;
        let low = (self.rings & 0xffff_ffff) as u32;
        rings.park_timeout(rt, low, Duration::from_millis(LONGEST_SLEEP));
        rings.load(SeqCst) != self.rings
    }
}

impl Drop for Sleeper<'_> {
    fn drop(self) {
        let Self { bell, rings: _ } = self;
        bell.sleepers.fetch_sub(1, SeqCst);
    }
}
