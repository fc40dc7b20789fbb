//! All triples, in order of making, found by server and by client.
ghost use Rattle.std.specs.Prelude.{◌≡◌, ◌≢◌, [], ◌∷◌, None, IfOk};
ghost use Rattle.aps_model.specs.Inherit.{IsFree, triple_of, without_server};
ghost use Rattle.aps_inherit.specs.Order.{after_in, first_of};
ghost use Rattle.aps_inherit.specs.Serving.{AreChains, server_of, servers};

use crate::order::Order;
use crate::triple::Triple;
use aps_model::limits::MOST_THREADS;
use aps_model::{NoMemory, ThreadId};
use std::alloc::Global;
use std::marker::Model;

/// The triples. Contracts see them as a list, the newest first. A triple is found by its server and by its client, and
/// comes and goes, in constant time.
#[derive(Drop)]
pub struct Triples {
    order: Order,
    by_server: Vec<Option<Triple>>,
    by_client: Vec<Option<ThreadId>>,
}

impl Model for Triples {
    ghost use Rattle.std.specs.Prelude.{List};
    ghost use Rattle.aps_model.specs.SchedulerState.{Triple as Plain};

    ghost Value = { List Plain };

    ghost use Rattle.aps_inherit.specs.Table.{IsTable, tabled};

    ghost view = { λ t. tabled t.by_server.items t.order };

    ghost invariant = { λ t. IsTable t.order t.by_server.items t.by_client.items (tabled t.by_server.items t.order) };
}

impl Triples {
    /// No triples, in room for one of each thread.
    pub fn new(alloc: Global) -> Result<Triples, NoMemory>
        ensures { IfOk result (λ triples. triples ≡ []) }
    {
        let order = Order::new(alloc)?;
        let mut by_server = Vec::with_capacity(alloc, MOST_THREADS)?;
        let mut by_client = Vec::with_capacity(alloc, MOST_THREADS)?;
        for _ in 0..MOST_THREADS {
            by_server.push(None)?;
            by_client.push(None)?;
        }
        Ok(Triples {
            order,
            by_server,
            by_client,
        })
    }

    /// The triple of which the thread is the server.
    pub fn triple_of(&self, x: ThreadId) -> Option<Triple>
        ensures { result ≡ triple_of self.now x }
    {
        self.by_server[x.index()]
    }

    /// The server of the thread.
    pub fn server_of(&self, x: ThreadId) -> Option<ThreadId>
        ensures same { result ≡ server_of self.now x }
        ensures chains { AreChains self.now }
    {
        self.by_client[x.index()]
    }

    /// The server of the newest triple.
    pub fn newest(&self) -> Option<ThreadId>
        ensures same { result ≡ first_of (servers self.now) }
        ensures chains { AreChains self.now }
    {
        self.order.first()
    }

    /// The server of the next older triple than this server's.
    pub fn older(&self, server: ThreadId) -> Option<ThreadId>
        ensures { result ≡ after_in (servers self.now) server }
    {
        self.order.after(server)
    }

    /// One triple more, the newest. Its server is in no triple, and its client has no server and isn't its server.
    pub fn add(&mut self, t: Triple)
        requires free { IsFree self.old t.server }
        requires alone { server_of self.old t.client ≡ None }
        requires other { t.server ≢ t.client }
        ensures { self.new ≡ t ∷ self.old }
    {
        let server = t.server();
        self.order.put_first(server);
        self.by_client[t.client().index()] = Some(server);
        self.by_server[server.index()] = Some(t);
    }

    /// The triple of the server is gone, if it has one.
    pub fn remove(&mut self, server: ThreadId)
        ensures { self.new ≡ without_server self.old server }
    {
        let Some(t) = self.triple_of(server) else {
            return;
        };
        self.order.take_out(server);
        self.by_client[t.client().index()] = None;
        self.by_server[server.index()] = None;
    }
}
