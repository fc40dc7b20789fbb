//! What ties threads to each other: messages that wait at channels, and who serves whom.
ghost use Rattle.std.specs.Prelude.{◌≡◌, ◌++◌, [], ◌∷◌, replicate, slice_index_or, unwrap_or, IfOk, OnOk};
ghost use Rattle.aps_model.specs.declared.program.Op.TheVariants.{Exit};
ghost use Rattle.aps_model.specs.Inherit.{facts_of, top_of};
ghost use Rattle.aps_model.specs.Messages.{without_sender};
ghost use Rattle.aps_model.specs.Scenario.{op_at};
ghost use Rattle.aps_model.specs.SchedulerState.{thread_at};
ghost use Rattle.aps_core.specs.Run.{state_of_run};
ghost use Rattle.view_explain.specs.Leads.{lead, top_in};
ghost use Rattle.view_explain.specs.Ties as spec;

use aps_core::Core;
use aps_model::{ChannelId, Done, Entry, Facts, NoMemory, Op, ThreadId};
use std::alloc::Global;
use std::marker::Model;

/// A message that waits: its sender, and the priority with which the sender counted when it sent.
#[derive(Clone, Copy, PartialEq, Eq)]
struct Message {
    sender: ThreadId,
    priority: u8,
}

impl Model for Message {
    ghost use Rattle.aps_model.specs.SchedulerState.{Message as Plain};

    ghost Value = { Plain };

    ghost view = { λ m. record { sender = m.sender; priority = m.priority } };

    ghost inverse = { λ m. record { sender = m.sender; priority = m.priority } };
}

/// A server, the client for which it works, and the channel by which the client's message came.
#[derive(Clone, Copy, PartialEq, Eq)]
struct Triple {
    server: ThreadId,
    client: ThreadId,
    channel: ChannelId,
}

impl Model for Triple {
    ghost use Rattle.aps_model.specs.SchedulerState.{Triple as Plain};

    ghost Value = { Plain };

    ghost view = { λ t. record { server = t.server; client = t.client; channel = t.channel } };

    ghost inverse = { λ t. record { server = t.server; client = t.client; channel = t.channel } };
}

/// The messages that wait at a channel, in order of arrival.
#[derive(Drop)]
struct Queue {
    messages: Vec<Message>,
}

impl Model for Queue {
    ghost use Rattle.std.specs.Prelude.{List};
    ghost use Rattle.aps_model.specs.SchedulerState.{Message as Plain};

    ghost Value = { List Plain };

    ghost view = { λ q. q.messages.items };
}

impl Queue {
    fn new(alloc: Global) -> Queue
        ensures { result ≡ [] }
    {
        Queue {
            messages: Vec::new(alloc),
        }
    }

    /// The greatest priority that waits, or 0.
    fn top(&self) -> u8
        ensures { result ≡ unwrap_or (top_of self.now) 0 }
    {
        let mut top = 0;
        for m in self.messages.as_slice() {
            top = m.priority.max(top);
        }
        top
    }

    fn add(&mut self, m: Message) -> Result<(), NoMemory>
        ensures { OnOk result (self.new ≡ self.old ++ m ∷ []) }
    {
        self.messages.push(m)?;
        Ok(())
    }

    /// The first message of the sender is gone.
    fn remove(&mut self, sender: ThreadId)
        ensures { self.new ≡ without_sender sender self.old }
    {
        let mut place = 0;
        while place < self.messages.len() && self.messages[place].sender != sender {
            place += 1;
        }
        if place < self.messages.len() {
            self.messages.remove(place);
        }
    }
}

/// The messages that wait at each channel, and the triples, the newest first.
#[derive(Drop)]
pub struct Ties {
    queues: Vec<Queue>,
    triples: Vec<Triple>,
}

impl Model for Ties {
    ghost use Rattle.view_explain.specs.Ties.{Ties as Plain};

    ghost Value = { Plain };

    ghost view = { λ t. record { messages = t.queues.items; triples = t.triples.items } };
}

impl Ties {
    /// Nothing waits at so many channels, and nobody serves.
    pub fn new(alloc: Global, channels: usize) -> Result<Ties, NoMemory>
        ensures { IfOk result (λ ties. ties ≡ record { messages = replicate channels []; triples = [] }) }
    {
        let mut queues = Vec::with_capacity(alloc, channels)?;
        for _ in 0..channels {
            queues.push(Queue::new(alloc))?;
        }
        Ok(Ties {
            queues,
            triples: Vec::new(alloc),
        })
    }

    /// The entry, which is the core's next one, is over: what its thread did ties or frees others. `NoMemory` leaves the ties
    /// in no state of use.
    pub fn go_on(&mut self, core: &Core, e: &Entry) -> Result<(), NoMemory>
        requires tied { self.old ≡ spec.ties_of (state_of_run core.now) }
        ensures { OnOk result (self.new ≡ spec.after_ran core.now.setup.scenario (state_of_run core.now) self.old e.now.ran e.now.done) }
    {
        let Some(x) = e.ran else {
            return Ok(());
        };
        let op = op_of(core, x);
        let priority = self.facts_of(core, x).priority;
        self.add_done(x, channel_named(&op), priority, &e.done)
    }

    /// The values that the thread is scheduled and billed by.
    pub fn facts_of(&self, core: &Core, x: ThreadId) -> Facts
        requires { self.now ≡ spec.ties_of (state_of_run core.now) }
        ensures { result ≡ facts_of (state_of_run core.now) x }
    {
        let (last, priority) = self.lead(x);
        let own = core.thread(last).own;
        Facts {
            priority: own.priority.max(priority),
            ..own
        }
    }

    /// The server of the newest triple whose message came by the channel.
    pub fn newest_server(&self, c: ChannelId) -> Option<ThreadId>
        ensures { result ≡ spec.newest_server self.now.triples c }
    {
        for i in 0..self.triples.len() {
            if self.triples[i].channel == c {
                return Some(self.triples[i].server);
            }
        }
        None
    }

    /// The last client in the chain of the thread, which is the thread itself where it serves nobody, and the greatest priority
    /// that waits at the channels of the chain, or 0.
    fn lead(&self, x: ThreadId) -> (ThreadId, u8)
        ensures { result ≡ lead self.now self.now.triples x 0 }
    {
        let mut last = x;
        let mut priority = 0;
        for t in self.triples.as_slice() {
            if t.server == last {
                priority = self.top(t.channel).max(priority);
                last = t.client;
            }
        }
        (last, priority)
    }

    /// The greatest priority that waits at the channel, or 0.
    fn top(&self, c: ChannelId) -> u8
        ensures { result ≡ top_in self.now c }
    {
        match self.queues.get(c.index()) {
            Some(queue) => queue.top(),
            None => 0,
        }
    }

    /// The thread, which counts with this priority, did this, at this channel if it was at one.
    fn add_done(
        &mut self,
        x: ThreadId,
        c: ChannelId,
        priority: u8,
        done: &Done,
    ) -> Result<(), NoMemory>
        ensures { OnOk result (self.new ≡ spec.after_done self.old x c priority done.now) }
    {
        match done {
            Done::SendBlocked => self.add_message(
                c,
                Message {
                    sender: x,
                    priority,
                },
            ),
            Done::SendTo(server) => self.add_triple(*server, x, c),
            Done::ReceiveGot(sender) => {
                self.remove_message(c, *sender);
                self.add_triple(x, *sender, c)
            }
            Done::ReplyFreed(_) | Done::Exit => {
                self.remove_triple(x);
                Ok(())
            }
            _ => Ok(()),
        }
    }

    fn add_message(&mut self, c: ChannelId, m: Message) -> Result<(), NoMemory>
        ensures { OnOk result (self.new ≡ spec.ties_with_messages self.old c (spec.tied_messages_at self.old c ++ m ∷ [])) }
    {
        let c = c.index();
        if c < self.queues.len() {
            self.queues[c].add(m)?;
        }
        Ok(())
    }

    fn remove_message(&mut self, c: ChannelId, sender: ThreadId)
        ensures { self.new ≡ spec.ties_with_messages self.old c (without_sender sender (spec.tied_messages_at self.old c)) }
    {
        let c = c.index();
        if c < self.queues.len() {
            self.queues[c].remove(sender);
        }
    }

    fn add_triple(
        &mut self,
        server: ThreadId,
        client: ThreadId,
        channel: ChannelId,
    ) -> Result<(), NoMemory>
        ensures { OnOk result (self.new ≡ spec.ties_with_triple self.old server client channel) }
    {
        self.triples.insert(
            0,
            Triple {
                server,
                client,
                channel,
            },
        )?;
        Ok(())
    }

    /// The newest triple of the server is gone.
    fn remove_triple(&mut self, server: ThreadId)
        ensures { self.new ≡ spec.without_triple self.old server }
    {
        let mut place = 0;
        while place < self.triples.len() && self.triples[place].server != server {
            place += 1;
        }
        if place < self.triples.len() {
            self.triples.remove(place);
        }
    }
}

/// The operation at the thread's place.
fn op_of(core: &Core, x: ThreadId) -> Op
    ensures { result ≡ op_at core.now.setup.scenario x (thread_at (state_of_run core.now) x).place }
{
    let place = core.thread(x).place as usize;
    match core.history().scenario().threads().get(x.index()) {
        Some(row) => op_in(row.program.ops(), place),
        None => Op::Exit,
    }
}

fn op_in(ops: &[Op], place: usize) -> Op
    ensures { result ≡ slice_index_or ops.now place Exit }
{
    match ops.get(place) {
        Some(op) => *op,
        None => Op::Exit,
    }
}

/// The channel that an operation names, or the first.
fn channel_named(op: &Op) -> ChannelId
    ensures { result ≡ spec.channel_of_operation op.now }
{
    match op {
        Op::Send(c) | Op::Receive(c) => *c,
        _ => ChannelId::at(0),
    }
}
