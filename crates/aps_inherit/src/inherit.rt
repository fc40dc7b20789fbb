//! Inherited values, kept beside each thread.
ghost use Rattle.std.specs.Prelude.{◌≡◌, ◌≢◌, ◌∷◌, None, slice_set, IfOk};
ghost use Rattle.aps_model.specs.Inherit.{IsFree, client_of, inheritance_of, inherited, without_server};
ghost use Rattle.aps_model.specs.Opening.{opening};
ghost use Rattle.aps_inherit.specs.Order.{after_in, first_of};
ghost use Rattle.aps_inherit.specs.Own.{own_of, with_own_values};
ghost use Rattle.aps_inherit.specs.Serving.{AreChains, server_of, servers};
ghost use Rattle.aps_inherit.specs.Values.{serves_by};

use crate::content::Content;
use crate::kept::Kept;
use crate::triple::Triple;
use aps_model::{ChannelId, Facts, NoMemory, PartitionId, Scenario, ThreadId};
use std::alloc::Global;
use std::marker::Model;

/// The values that threads inherit: a thread that serves nobody has its own ones, a server its client's, with the
/// priority raised to the greatest that waits at the channel by which the client's message came. They are kept beside
/// each thread, and only those above a change are computed anew. Contracts see what they go by: each thread's own
/// values, the triples with the newest first, and the greatest priority that waits at each channel.
pub struct Inherit {
    content: Content,
    kept: Kept,
}

// Written out, so that it is proved here alone: a derived drop is proved again in each crate that lets a value go.
impl Drop for Inherit {
    fn drop(self) {
        let Self {
            content: _,
            kept: _,
        } = self;
    }
}

impl Model for Inherit {
    ghost use Rattle.aps_model.specs.Inherit.{Inheritance};
    ghost use Rattle.aps_inherit.specs.Values.{AreRightBut, nobody};

    ghost Value = { Inheritance };

    ghost view = { λ i. i.content };

    ghost invariant = { λ i. AreRightBut nobody i.content i.kept };
}

impl Inherit {
    /// The values at the start of a scenario: each thread's own, no triples, and nothing that waits. `NoMemory` comes
    /// where there is no room; no other call takes memory.
    pub fn new(alloc: Global, scenario: &Scenario) -> Result<Inherit, NoMemory>
        ensures { IfOk result (λ inherit. inherit ≡ inheritance_of (opening scenario.now)) }
    {
        let content = Content::new(alloc, scenario)?;
        let kept = Kept::new(alloc, &content)?;
        Ok(Inherit { content, kept })
    }

    /// The values by which the thread is scheduled and billed.
    pub fn of(&self, x: ThreadId) -> Facts
        ensures { result ≡ inherited self.now x }
    {
        let _chains = self.content.newest();
        self.kept.at(x)
    }

    /// The thread's own values.
    pub fn own(&self, x: ThreadId) -> Facts
        ensures { result ≡ own_of self.now x }
    {
        self.content.own(x)
    }

    /// The client for which the thread works. There is none exactly where it serves nobody.
    pub fn client_of(&self, x: ThreadId) -> Option<ThreadId>
        ensures { result ≡ client_of self.now.triples x }
    {
        match self.content.triple_of(x) {
            None => None,
            Some(t) => Some(t.client()),
        }
    }

    /// The thread that works for this one. There is none exactly where nobody serves it.
    pub fn server_of(&self, x: ThreadId) -> Option<ThreadId>
        ensures same { result ≡ server_of self.now.triples x }
        ensures chains { AreChains self.now.triples }
    {
        self.content.server_of(x)
    }

    /// Whether the thread serves by the channel.
    pub fn serves_by(&self, x: ThreadId, c: ChannelId) -> bool
        ensures { result ≡ serves_by self.now c x }
    {
        self.content.serves_by(x, c)
    }

    /// The server of the newest triple. There is none exactly where nobody serves.
    pub fn newest_server(&self) -> Option<ThreadId>
        ensures same { result ≡ first_of (servers self.now.triples) }
        ensures chains { AreChains self.now.triples }
    {
        self.content.newest()
    }

    /// The server of the next older triple than this server's. There is none where its triple is the oldest one, or
    /// where it serves nobody.
    pub fn older_server(&self, server: ThreadId) -> Option<ThreadId>
        ensures { result ≡ after_in (servers self.now.triples) server }
    {
        self.content.older(server)
    }

    /// The server works for the client from now on, whose message came by the channel. Conditions: the server serves
    /// nobody and is nobody's client, and the client is nobody's client and isn't the server.
    pub fn serve(&mut self, server: ThreadId, client: ThreadId, by: ChannelId)
        requires free { IsFree self.old.triples server }
        requires alone { server_of self.old.triples client ≡ None }
        requires other { server ≢ client }
        ensures { self.new ≡ record self.old { triples = (record { server = server; client = client; channel = by }) ∷ self.old.triples } }
    {
        self.content.add(Triple::new(server, client, by));
        self.kept.settle(&self.content, server);
    }

    /// The server works for nobody from now on. Nothing changes where it served nobody.
    pub fn end(&mut self, server: ThreadId)
        ensures { self.new ≡ record self.old { triples = without_server self.old.triples server } }
    {
        self.content.remove(server);
        self.kept.settle(&self.content, server);
    }

    /// The thread's own partition is this from now on.
    pub fn join(&mut self, x: ThreadId, p: PartitionId)
        ensures { self.new ≡ with_own_values self.old x (record (own_of self.old x) { partition = p }) }
    {
        let own = self.own(x);
        let joined = Facts {
            partition: p,
            ..own
        };
        self.set_own(x, joined);
    }

    /// The thread's own priority is this from now on.
    pub fn set_priority(&mut self, x: ThreadId, priority: u8)
        ensures { self.new ≡ with_own_values self.old x (record (own_of self.old x) { priority = priority }) }
    {
        let own = self.own(x);
        self.set_own(x, Facts { priority, ..own });
    }

    /// The thread's own critical mark is this from now on.
    pub fn mark(&mut self, x: ThreadId, on: bool)
        ensures { self.new ≡ with_own_values self.old x (record (own_of self.old x) { critical = on }) }
    {
        let own = self.own(x);
        let marked = Facts {
            critical: on,
            ..own
        };
        self.set_own(x, marked);
    }

    /// The thread's own values are these from now on.
    fn set_own(&mut self, x: ThreadId, own: Facts)
        ensures { self.new ≡ with_own_values self.old x own }
    {
        self.content.set_own(x, own);
        self.kept.settle(&self.content, x);
    }

    /// The greatest priority that waits at the channel is this from now on, or none where no message waits.
    pub fn raise(&mut self, c: ChannelId, top: Option<u8>)
        ensures { self.new ≡ record self.old { tops = slice_set self.old.tops c top } }
    {
        self.content.set_top(c, top);
        self.kept.settle_channel(&self.content, c);
    }
}
