//! What the workers of a pool share.
use crate::mailbox::Mailbox;
use crate::slot::{OfLive, Slot};
use aps_model::ThreadId;
use std::sync::{Mutex, Wait};

/// How many workers there are: two of each partition.
pub const WORKERS: usize = 4;

/// The slots that came home, by their processors.
#[derive(Drop)]
pub struct Home<P: OfLive> {
    pub zero: Option<Slot<P>>,
    pub one: Option<Slot<P>>,
}

impl<P: OfLive> Home<P> {
    /// Takes a slot home.
    fn put(&mut self, slot: Slot<P>) {
        if slot.cpu().index() == 0 {
            self.zero = Some(slot);
        } else {
            self.one = Some(slot);
        }
    }

    /// Whether both are home.
    fn is_full(&self) -> bool {
        self.zero.is_some() && self.one.is_some()
    }
}

/// What the workers share.
#[derive(Drop)]
pub struct Pool<P: OfLive> {
    mailboxes: [Mailbox<P>; WORKERS],
    home: Mutex<Home<P>>,
}

impl<P: OfLive> Pool<P> {
    /// A pool whose slots are all elsewhere.
    pub fn new() -> Pool<P> {
        Pool {
            mailboxes: [
                Mailbox::new(),
                Mailbox::new(),
                Mailbox::new(),
                Mailbox::new(),
            ],
            home: Mutex::new(Home {
                zero: None,
                one: None,
            }),
        }
    }

    /// Waits for a slot for the worker. There is none once the run is over.
    pub fn take<R: Wait>(&self, rt: &R, worker: ThreadId) -> Option<Slot<P>> {
        self.mailboxes.get(worker.index())?.take(rt)
    }

    /// Hands the slot on to the worker that was picked, or home where there is none.
    pub fn hand_on<R: Wait>(&self, rt: &R, slot: Slot<P>, picked: Option<ThreadId>) {
        match picked {
            Some(worker) if worker.index() < WORKERS => {
                self.mailboxes[worker.index()].put(rt, slot)
            }
            _ => self.bring_home(rt, slot),
        }
    }

    /// Takes the slot home. Once all are home no worker may go on.
    fn bring_home<R: Wait>(&self, rt: &R, slot: Slot<P>) {
        let mut home = self.home.lock(rt);
        home.put(slot);
        if home.is_full() {
            self.close(rt);
        }
    }

    /// Says that no worker may go on.
    pub fn close<R: Wait>(&self, rt: &R) {
        for mailbox in &self.mailboxes {
            mailbox.close(rt);
        }
    }

    /// The slots that are home.
    pub fn into_home(self) -> Home<P> {
        let Pool { mailboxes: _, home } = self;
        home.into_inner()
    }
}
