//! Where a worker waits for a slot.
use crate::slot::{OfLive, Slot};
use std::sync::{Condvar, Mutex, Wait};

/// What lies in a mailbox.
#[derive(Drop)]
struct Post<P: OfLive> {
    slot: Option<Slot<P>>,
    closed: bool,
}

impl<P: OfLive> Post<P> {
    /// Whether there is nothing to be told.
    fn is_silent(&self) -> bool {
        self.slot.is_none() && !self.closed
    }

    /// The slot, if one lies there.
    fn take(&mut self) -> Option<Slot<P>> {
        if self.closed { None } else { self.slot.take() }
    }
}

/// Where a worker waits for a slot. While it has none it may not work.
#[derive(Drop)]
pub struct Mailbox<P: OfLive> {
    post: Mutex<Post<P>>,
    arrived: Condvar,
}

impl<P: OfLive> Mailbox<P> {
    /// An empty one.
    pub fn new() -> Mailbox<P> {
        Mailbox {
            post: Mutex::new(Post {
                slot: None,
                closed: false,
            }),
            arrived: Condvar::new(),
        }
    }

    /// Puts a slot in.
    pub fn put<R: Wait>(&self, rt: &R, slot: Slot<P>) {
        self.post.lock(rt).slot = Some(slot);
        self.arrived.notify_one();
    }

    /// Says that there is no more work.
    pub fn close<R: Wait>(&self, rt: &R) {
        self.post.lock(rt).closed = true;
        self.arrived.notify_one();
    }

    /// Waits for a slot. There is none once the mailbox was closed.
    pub fn take<R: Wait>(&self, rt: &R) -> Option<Slot<P>> {
        self.arrived
            .wait_while(rt, self.post.lock(rt), |post| post.is_silent())
            .take()
    }
}
