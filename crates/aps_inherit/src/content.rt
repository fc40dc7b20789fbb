//! What inheritance goes by: each thread's own values, who serves whom, and what waits at each channel.
ghost use Rattle.std.specs.Prelude.{◌≡◌, ◌≢◌, ◌≤◌, ◌∷◌, None, length, slice_set, IfOk};
ghost use Rattle.aps_model.specs.Inherit.{IsFree, inheritance_of, top_at, triple_of, without_server};
ghost use Rattle.aps_model.specs.Limits.{most_threads};
ghost use Rattle.aps_model.specs.Opening.{opening};
ghost use Rattle.aps_model.specs.SchedulerState.{no_facts};
ghost use Rattle.aps_inherit.specs.Order.{after_in, first_of};
ghost use Rattle.aps_inherit.specs.Opening.{no_tops, own_values};
ghost use Rattle.aps_inherit.specs.Own.{own_of, with_own_values};
ghost use Rattle.aps_inherit.specs.Serving.{AreChains, server_of, servers};
ghost use Rattle.aps_inherit.specs.Values.{serves_by};

use crate::triple::Triple;
use crate::triples::Triples;
use aps_model::{ChannelId, Facts, NoMemory, PartitionId, Scenario, ThreadId, ThreadRow};
use std::alloc::Global;
use std::marker::Model;

/// The own values of the threads, the triples, and the greatest priority that waits at each channel. Contracts see them
/// as the definitions do.
#[derive(Drop)]
pub struct Content {
    own: Vec<Facts>,
    triples: Triples,
    tops: Vec<Option<u8>>,
}

impl Model for Content {
    ghost use Rattle.aps_model.specs.Inherit.{Inheritance};

    ghost Value = { Inheritance };

    ghost view = { λ c. record { own = c.own.items; triples = c.triples; tops = c.tops.items } };
}

impl Content {
    /// The threads' own values, no triples, and nothing that waits.
    pub fn new(alloc: Global, scenario: &Scenario) -> Result<Content, NoMemory>
        ensures same { IfOk result (λ content. content ≡ inheritance_of (opening scenario.now)) }
        ensures few { IfOk result (λ content. length content.own ≤ most_threads) }
    {
        let own = own_values(alloc, scenario.threads())?;
        let triples = Triples::new(alloc)?;
        let tops = no_tops(alloc, scenario.channels().len())?;
        Ok(Content { own, triples, tops })
    }

    /// The thread's own values.
    pub fn own(&self, x: ThreadId) -> Facts
        ensures { result ≡ own_of self.now x }
    {
        match self.own.get(x.index()) {
            Some(own) => *own,
            None => no_facts(),
        }
    }

    /// The greatest priority that waits at the channel, or 0.
    pub fn top(&self, c: ChannelId) -> u8
        ensures { result ≡ top_at self.now.tops c }
    {
        match self.tops.get(c.index()) {
            Some(top) => top.unwrap_or(0),
            None => 0,
        }
    }

    /// The triple of which the thread is the server.
    pub fn triple_of(&self, x: ThreadId) -> Option<Triple>
        ensures { result ≡ triple_of self.now.triples x }
    {
        self.triples.triple_of(x)
    }

    /// The server of the thread.
    pub fn server_of(&self, x: ThreadId) -> Option<ThreadId>
        ensures same { result ≡ server_of self.now.triples x }
        ensures chains { AreChains self.now.triples }
    {
        self.triples.server_of(x)
    }

    /// The server of the newest triple.
    pub fn newest(&self) -> Option<ThreadId>
        ensures same { result ≡ first_of (servers self.now.triples) }
        ensures chains { AreChains self.now.triples }
    {
        self.triples.newest()
    }

    /// The server of the next older triple than this server's.
    pub fn older(&self, server: ThreadId) -> Option<ThreadId>
        ensures { result ≡ after_in (servers self.now.triples) server }
    {
        self.triples.older(server)
    }

    /// The thread serves by the channel.
    pub fn serves_by(&self, x: ThreadId, c: ChannelId) -> bool
        ensures { result ≡ serves_by self.now c x }
    {
        match self.triple_of(x) {
            None => false,
            Some(t) => t.channel() == c,
        }
    }

    /// The thread's own values are these from now on.
    pub fn set_own(&mut self, x: ThreadId, own: Facts)
        ensures { self.new ≡ with_own_values self.old x own }
    {
        let index = x.index();
        if index < self.own.len() {
            self.own[index] = own;
        }
    }

    /// The greatest priority that waits at the channel is this from now on.
    pub fn set_top(&mut self, c: ChannelId, top: Option<u8>)
        ensures { self.new ≡ record self.old { tops = slice_set self.old.tops c top } }
    {
        let index = c.index();
        if index < self.tops.len() {
            self.tops[index] = top;
        }
    }

    /// One triple more, the newest. Its server is in no triple, and its client has no server and isn't its server.
    pub fn add(&mut self, t: Triple)
        requires free { IsFree self.old.triples t.server }
        requires alone { server_of self.old.triples t.client ≡ None }
        requires other { t.server ≢ t.client }
        ensures { self.new ≡ record self.old { triples = t ∷ self.old.triples } }
    {
        self.triples.add(t);
    }

    /// The triple of the server is gone, if it has one.
    pub fn remove(&mut self, server: ThreadId)
        ensures { self.new ≡ record self.old { triples = without_server self.old.triples server } }
    {
        self.triples.remove(server);
    }
}

/// The values of no thread.
fn no_facts() -> Facts
    ensures { result ≡ no_facts }
{
    Facts {
        partition: PartitionId::at(0),
        priority: 0,
        critical: false,
    }
}

/// The own values of these threads.
fn own_values(alloc: Global, rows: &[ThreadRow]) -> Result<Vec<Facts>, NoMemory>
    ensures { IfOk result (λ own. own.items ≡ own_values rows.now) }
{
    let mut own = Vec::with_capacity(alloc, rows.len())?;
    for row in rows {
        own.push(Facts {
            partition: row.partition,
            priority: row.priority,
            critical: row.critical,
        })?;
    }
    Ok(own)
}

/// So many channels at which nothing waits.
fn no_tops(alloc: Global, count: usize) -> Result<Vec<Option<u8>>, NoMemory>
    ensures { IfOk result (λ tops. tops.items ≡ no_tops count) }
{
    let mut tops = Vec::with_capacity(alloc, count)?;
    for _ in 0..count {
        tops.push(None)?;
    }
    Ok(tops)
}
