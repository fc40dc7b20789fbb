//! The values kept beside each thread, and how they follow a change.
ghost use Rattle.std.specs.Prelude.{◌≡◌, ◌<◌, ◌≤◌, ◌↔◌, ℕ, Bool, None, Some, length, slice_set, if◌then◌else◌, IsTrue, IfOk};
ghost use Rattle.aps_model.specs.Inherit.{raised};
ghost use Rattle.aps_model.specs.Limits.{most_threads};
ghost use Rattle.aps_inherit.specs.Own.{own_of};
ghost use Rattle.aps_inherit.specs.Values.{Mends, kept_at, nobody, of_channel, or_at, serves_by, values_by};

use crate::content::Content;
use aps_model::limits::MOST_THREADS;
use aps_model::{ChannelId, Facts, NoMemory, ThreadId};
use std::alloc::Global;
use std::marker::Model;

/// Values for each thread that there can be. Contracts see them in order of the threads.
#[derive(Drop)]
pub struct Kept {
    values: Vec<Facts>,
}

impl Model for Kept {
    ghost use Rattle.std.specs.Prelude.{◌≡◌, List, length};
    ghost use Rattle.aps_model.specs.declared.state.Facts.{Facts};
    ghost use Rattle.aps_model.specs.Limits.{most_threads};

    ghost Value = { List Facts };

    ghost view = { λ k. k.values.items };

    ghost invariant = { λ k. length k.values.items ≡ most_threads };
}

impl Kept {
    /// Each thread's own values.
    pub fn new(alloc: Global, content: &Content) -> Result<Kept, NoMemory>
        requires { length content.now.own ≤ most_threads }
        ensures { IfOk result (λ kept. (x : ℕ) → kept_at kept x ≡ own_of content.now x) }
    {
        let mut values = Vec::with_capacity(alloc, MOST_THREADS)?;
        for x in 0..MOST_THREADS {
            values.push(content.own(ThreadId::at(x)))?;
        }
        Ok(Kept { values })
    }

    /// The values kept for the thread.
    pub fn at(&self, x: ThreadId) -> Facts
        ensures { result ≡ kept_at self.now x }
    {
        self.values[x.index()]
    }

    /// These are kept for the thread from now on.
    fn set(&mut self, x: ThreadId, values: Facts)
        ensures same { self.new ≡ slice_set self.old x values }
        ensures inside { x < length self.old }
    {
        self.values[x.index()] = values;
    }

    /// The thread's values by those that are kept: a server's by its client's, any other thread's own.
    fn values_by(&self, content: &Content, x: ThreadId) -> Facts
        ensures { result ≡ values_by content.now self.now x }
    {
        match content.triple_of(x) {
            None => content.own(x),
            Some(t) => raised(&self.at(t.client()), content.top(t.channel())),
        }
    }

    /// Computes the values of the thread anew, and then those of the servers above it, up to the first that stay the
    /// same. Whoever's values were right before, but for this thread's, has right ones then, and so has this thread.
    pub fn settle(&mut self, content: &Content, from: ThreadId)
        ensures { (late : ℕ → Bool) → Mends content.now self.old self.new (or_at late (Some from)) late }
    {
        let mut next = Some(from);
        while let Some(x) = next {
            let values = self.values_by(content, x);
            let same = is_same(&values, &self.at(x));
            let above = content.server_of(x);
            next = unless(same, above);
            self.set(x, values);
        }
    }

    /// Computes the values of all servers by the channel anew, and of those above them.
    pub fn settle_channel(&mut self, content: &Content, c: ChannelId)
        ensures { Mends content.now self.old self.new (serves_by content.now c) nobody }
    {
        let mut next = content.newest();
        while let Some(server) = next {
            next = content.older(server);
            self.settle_if_by(content, server, c);
        }
    }

    /// Computes the values of the server anew, and of those above it, if it serves by the channel. Whoever's values were
    /// right before, but for this server's where it serves by the channel, has right ones then, and so has this server.
    fn settle_if_by(&mut self, content: &Content, server: ThreadId, c: ChannelId)
        ensures { let i = content.now in (late : ℕ → Bool)
            → Mends i self.old self.new (of_channel i c (or_at late (Some server))) (of_channel i c late) }
    {
        if content.serves_by(server, c) {
            self.settle(content, server);
        }
    }
}

/// The values with a priority of at least so much.
fn raised(facts: &Facts, priority: u8) -> Facts
    ensures { result ≡ raised priority facts.now }
{
    Facts {
        partition: facts.partition,
        priority: facts.priority.max(priority),
        critical: facts.critical,
    }
}

/// The two are the same values.
fn is_same(a: &Facts, b: &Facts) -> bool
    ensures { IsTrue result ↔ (a.now ≡ b.now) }
{
    a == b
}

/// Nobody where this holds, else the thread.
fn unless(holds: bool, x: Option<ThreadId>) -> Option<ThreadId>
    ensures { result ≡ (if holds then None else x) }
{
    if holds { None } else { x }
}
