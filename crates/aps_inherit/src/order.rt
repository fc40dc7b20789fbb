//! Threads in an order, into which one comes and from which one goes in constant time.
ghost use Rattle.std.specs.Prelude.{◌≡◌, false, [], ◌∷◌, length, None, IfOk};
ghost use Rattle.aps_inherit.specs.Order.{after_in, first_of, has, order_without};
ghost use Rattle.aps_inherit.specs.Links.{link_in, next_first, order_with_after, order_with_before};
ghost use Rattle.aps_model.specs.Limits.{most_threads};

use aps_model::limits::MOST_THREADS;
use aps_model::{NoMemory, ThreadId};
use std::alloc::Global;
use std::marker::Model;

/// The neighbours of a thread that stands in the order: none before the first, none after the last.
#[derive(Clone, Copy, PartialEq, Eq)]
pub struct Link {
    before: Option<ThreadId>,
    after: Option<ThreadId>,
}

/// Threads in an order, each at most once. Contracts see it as the list of their numbers.
#[derive(Drop)]
pub struct Order {
    first: Option<ThreadId>,
    links: Vec<Option<Link>>,
}

impl Model for Order {
    ghost use Rattle.std.specs.Prelude.{ℕ, List};

    ghost Value = { List ℕ };

    ghost use Rattle.aps_inherit.specs.Links.{LinksStandFor, listed};

    ghost view = { λ o. listed o.links.items o.first };

    ghost invariant = { λ o. LinksStandFor o.links.items o.first (listed o.links.items o.first) };
}

impl Order {
    /// No thread, in room for all.
    pub fn new(alloc: Global) -> Result<Order, NoMemory>
        ensures { IfOk result (λ order. order ≡ []) }
    {
        let mut links = Vec::with_capacity(alloc, MOST_THREADS)?;
        for _ in 0..MOST_THREADS {
            links.push(None)?;
        }
        Ok(Order { first: None, links })
    }

    /// The first thread.
    pub fn first(&self) -> Option<ThreadId>
        ensures { result ≡ first_of self.now }
    {
        self.first
    }

    /// The thread that comes after this one. There is none where this one is the last, or isn't there.
    pub fn after(&self, x: ThreadId) -> Option<ThreadId>
        ensures { result ≡ after_in self.now x }
    {
        match self.link(x) {
            None => None,
            Some(link) => link.after,
        }
    }

    /// The neighbours of the thread, if it is there.
    fn link(&self, x: ThreadId) -> Option<Link>
        ensures { result ≡ link_in None self.now x }
    {
        self.links[x.index()]
    }

    /// A thread that isn't there becomes the first.
    pub fn put_first(&mut self, x: ThreadId)
        requires { has self.old x ≡ false }
        ensures { self.new ≡ x ∷ self.old }
    {
        set_before(&mut self.links, self.first, Some(x));
        self.links[x.index()] = Some(Link {
            before: None,
            after: self.first,
        });
        self.first = Some(x);
    }

    /// The thread goes, if it is there.
    pub fn take_out(&mut self, x: ThreadId)
        ensures { self.new ≡ order_without self.old x }
    {
        let Some(link) = self.link(x) else {
            return;
        };
        set_before(&mut self.links, link.after, link.before);
        set_after(&mut self.links, link.before, link.after);
        self.links[x.index()] = None;
        self.first = next_first(self.first, &link);
    }
}

/// The first thread once the one with this link has gone.
fn next_first(first: Option<ThreadId>, link: &Link) -> Option<ThreadId>
    ensures { result ≡ next_first first link.now }
{
    if link.before.is_some() {
        first
    } else {
        link.after
    }
}

/// What stands before the thread, if there is such a thread.
fn set_before(links: &mut Vec<Option<Link>>, x: Option<ThreadId>, before: Option<ThreadId>)
    requires { length links.old.items ≡ most_threads }
    ensures { links.new.items ≡ order_with_before links.old.items x before }
{
    if let Some(x) = x {
        if let Some(link) = links[x.index()] {
            links[x.index()] = Some(Link { before, ..link });
        }
    }
}

/// What stands after the thread, if there is such a thread.
fn set_after(links: &mut Vec<Option<Link>>, x: Option<ThreadId>, after: Option<ThreadId>)
    requires { length links.old.items ≡ most_threads }
    ensures { links.new.items ≡ order_with_after links.old.items x after }
{
    if let Some(x) = x {
        if let Some(link) = links[x.index()] {
            links[x.index()] = Some(Link { after, ..link });
        }
    }
}
