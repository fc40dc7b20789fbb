//! Who serves whom.
ghost use Rattle.std.specs.Prelude.{◌≡◌, ◌<◌, [], ◌∷◌, min, replicate, IfOk, IsSome, None};
ghost use Rattle.aps_model.specs.Inherit.{client_of, without_server};
ghost use Rattle.aps_model.specs.Limits.{most_threads};

use crate::lines::{Lines, MOST_THREADS};
use aps_model::{ChannelId, NoMemory, ThreadId};
use std::alloc::Global;
use std::marker::Model;

/// The line in which the servers stand.
const SERVERS: usize = 0;

/// What a server holds: the number of its client, and of the channel by which the client's message came.
#[derive(Clone, Copy, PartialEq, Eq)]
pub struct Held {
    pub client: u16,
    pub channel: u8,
}

/// The triples of server, client and channel. Contracts see them with the newest first. A server has one at most, so
/// that its client stands at the server's own number.
#[derive(Drop)]
pub struct Serving {
    /// the servers, of whom the one that began first stands first
    servers: Lines,
    /// what each thread holds
    held: Vec<Option<Held>>,
}

impl Model for Serving {
    ghost use Rattle.aps_channel.specs.Lines.{queue_line_at};
    ghost use Rattle.aps_channel.specs.Serving.{IsServing, triples_of, Serving as Plain};

    ghost Value = { Plain };

    ghost view = { λ s. record { triples = triples_of s.held.items (queue_line_at s.servers.lines 0); threads = s.servers.numbers } };

    ghost invariant = { λ s. IsServing s.servers s.held.items };
}

impl Serving {
    /// Nobody serves, with room for one triple of each thread, of which there are at most 1,024. `NoMemory` comes where
    /// there is no such room.
    pub fn new(alloc: Global, threads: u16) -> Result<Serving, NoMemory>
        ensures { IfOk result (λ s. s ≡ record { triples = []; threads = min threads most_threads }) }
    {
        let threads = threads.min(MOST_THREADS);
        let servers = Lines::new(alloc, 1, threads)?;
        let held = nothing_held(alloc, threads as usize)?;
        Ok(Serving { servers, held })
    }

    /// The client that the thread holds. There is none exactly where it serves nobody.
    pub fn client_of(&self, x: ThreadId) -> Option<ThreadId>
        requires { x < self.now.threads }
        ensures { result ≡ client_of self.now.triples x }
    {
        let held = self.held[x.index()];
        match held {
            None => None,
            Some(h) => Some(ThreadId::at(h.client as usize)),
        }
    }

    /// The server, which serves nobody, begins to work for the client, whose message came by the channel.
    pub fn begin(&mut self, server: ThreadId, client: ThreadId, channel: ChannelId)
        requires thread { server < self.old.threads }
        requires free { client_of self.old.triples server ≡ None }
        ensures { self.new ≡ record self.old {
          triples = (record { server = server; client = client; channel = channel })
              ∷ self.old.triples;
        } }
    {
        let server = server.index();
        let client = client.index() as u16;
        let channel = channel.index() as u8;
        self.held[server] = Some(Held { client, channel });
        self.servers.push_back(SERVERS, server as u16);
    }

    /// The server, which holds a client, serves nobody any longer.
    pub fn end(&mut self, server: ThreadId)
        requires thread { server < self.old.threads }
        requires serves { IsSome (client_of self.old.triples server) }
        ensures { self.new ≡ record self.old { triples = without_server self.old.triples server } }
    {
        let server = server.index();
        self.held[server] = None;
        self.servers.remove(SERVERS, server as u16);
    }
}

/// What so many threads hold that serve nobody.
fn nothing_held(alloc: Global, threads: usize) -> Result<Vec<Option<Held>>, NoMemory>
    ensures { IfOk result (λ held. held.items ≡ replicate threads None) }
{
    let mut held = Vec::with_capacity(alloc, threads)?;
    for _ in 0..threads {
        held.push(None)?;
    }
    Ok(held)
}
