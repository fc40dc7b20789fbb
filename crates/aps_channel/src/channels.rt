//! Channels, and the calls of threads on them.
ghost use Rattle.std.specs.Prelude.{◌≡◌, ◌<◌, [], length, min, replicate, IfOk, None};
ghost use Rattle.aps_model.specs.Inherit.{client_of, top_of};
ghost use Rattle.aps_model.specs.Limits.{most_threads};
ghost use Rattle.aps_model.specs.SchedulerState.{no_channel};
ghost use Rattle.aps_channel.specs.Channels.{IsCalm, WaitsNowhere, channel_in_place, after_receive, received_from, after_reply, after_send};
ghost use Rattle.aps_channel.specs.Waiting.{first_sender};

use crate::lines::{Lines, MOST_THREADS};
use crate::outcome::{Received, Replied, Sent};
use crate::serving::Serving;
use crate::waiting::Waiting;
use aps_model::{ChannelId, NoMemory, ThreadId};
use std::alloc::Global;
use std::marker::Model;

/// The channels of a run: who waits at each, and which server works for which client. Contracts see the messages and the
/// receivers of each channel in order of arrival, the triples of server, client and channel with the newest first, and how
/// many threads there are. No channel has both a message and a receiver that wait, and a thread that waits for a message
/// holds no client. Room for every thread is taken when they are made; no other call takes memory, and each takes a few
/// steps, however many threads wait.
pub struct Channels {
    waiting: Waiting,
    receivers: Lines,
    serving: Serving,
}

// Written out, so that it is proved here alone: a derived drop is proved again in each crate that lets a value go.
impl Drop for Channels {
    fn drop(self) {
        let Self {
            waiting: _,
            receivers: _,
            serving: _,
        } = self;
    }
}

impl Model for Channels {
    ghost use Rattle.aps_channel.specs.Channels.{Channels as Plain};

    ghost Value = { Plain };

    ghost use Rattle.aps_channel.specs.ChannelsView.{channels_of, AreChannels};

    ghost view = { λ s. channels_of s.waiting s.receivers s.serving };

    ghost invariant = { λ s. AreChannels s.waiting s.receivers s.serving };
}

impl Channels {
    /// So many channels at which nobody waits, and nobody who serves, with room for so many threads, of which there are at
    /// most 1,024. `NoMemory` comes where there is no such room, or where the slab of the messages' records takes more than
    /// 65,535 places.
    pub fn new(alloc: Global, channels: u16, threads: u16) -> Result<Channels, NoMemory>
        ensures { IfOk result
            (λ s. s ≡ record { channels = replicate channels no_channel; triples = []; threads = min threads most_threads }) }
    {
        let waiting = Waiting::new(alloc, channels, threads)?;
        let receivers = Lines::new(alloc, channels as usize, threads.min(MOST_THREADS))?;
        let serving = Serving::new(alloc, threads)?;
        Ok(Channels {
            waiting,
            receivers,
            serving,
        })
    }

    /// A message of the thread `from`, which has this priority and waits nowhere, comes to the channel. It is `Delivered`
    /// to the receiver that has waited longest, which then waits no longer and holds `from` as its client; the answer names
    /// it. It is `Blocked` exactly where no receiver waits, and then waits with the priority given, whatever the sender's
    /// becomes.
    pub fn send(&mut self, c: ChannelId, from: ThreadId, priority: u8) -> Sent
        requires channel { c < length self.old.channels }
        requires thread { from < self.old.threads }
        requires idle { WaitsNowhere self.old from }
        ensures answer { result ≡ (after_send self.old c from priority (channel_in_place self.old c).receivers).answer }
        ensures state { self.new ≡ (after_send self.old c from priority (channel_in_place self.old c).receivers).state }
        ensures calm { IsCalm self.new }
    {
        let line = c.index();
        match self.receivers.first(line) {
            None => {
                self.waiting.push(c, from, priority);
                Sent::Blocked
            }
            Some(first) => {
                let server = ThreadId::at(first as usize);
                self.receivers.remove(line, first);
                self.serving.begin(server, from, c);
                Sent::Delivered(server)
            }
        }
    }

    /// A receive of the thread `by`, which waits nowhere, at the channel. It is refused with `Holding` exactly where `by`
    /// holds that client, and then nothing changes. Else it is `Got` the waiting message of the greatest priority, and of
    /// these the earliest, whose sender `by` then holds as its client. It is `Blocked` exactly where no message waits, and
    /// then `by` waits behind all other receivers.
    pub fn receive(&mut self, c: ChannelId, by: ThreadId) -> Received
        requires channel { c < length self.old.channels }
        requires thread { by < self.old.threads }
        requires idle { WaitsNowhere self.old by }
        ensures answer { result ≡ (after_receive self.old c by (client_of self.old.triples by)).answer }
        ensures state { self.new ≡ (after_receive self.old c by (client_of self.old.triples by)).state }
        ensures calm { IsCalm self.new }
    {
        match self.serving.client_of(by) {
            Some(client) => Received::Holding { client },
            None => self.take_message(c, by),
        }
    }

    /// The receive of a thread that holds no client.
    fn take_message(&mut self, c: ChannelId, by: ThreadId) -> Received
        requires channel { c < length self.old.channels }
        requires thread { by < self.old.threads }
        requires idle { WaitsNowhere self.old by }
        requires free { client_of self.old.triples by ≡ None }
        ensures answer { result ≡ (received_from self.old c by (first_sender (channel_in_place self.old c).messages)).answer }
        ensures state { self.new ≡ (received_from self.old c by (first_sender (channel_in_place self.old c).messages)).state }
        ensures calm { IsCalm self.new }
    {
        match self.waiting.take_first(c) {
            None => {
                let line = c.index();
                let thread = by.index();
                self.receivers.push_back(line, thread as u16);
                Received::Blocked
            }
            Some(client) => {
                self.serving.begin(by, client, c);
                Received::Got(client)
            }
        }
    }

    /// A reply of the thread `by`, which waits nowhere. It has `Freed` the client that `by` held, or is refused with
    /// `NoClient` exactly where `by` holds none, and then nothing changes.
    pub fn reply(&mut self, by: ThreadId) -> Replied
        requires thread { by < self.old.threads }
        requires idle { WaitsNowhere self.old by }
        ensures answer { result ≡ (after_reply self.old by (client_of self.old.triples by)).answer }
        ensures state { self.new ≡ (after_reply self.old by (client_of self.old.triples by)).state }
        ensures calm { IsCalm self.new }
    {
        match self.serving.client_of(by) {
            None => Replied::NoClient,
            Some(client) => {
                self.serving.end(by);
                Replied::Freed(client)
            }
        }
    }

    /// The greatest priority that waits at the channel. There is none exactly where no message waits.
    pub fn top(&self, c: ChannelId) -> Option<u8>
        requires { c < length self.now.channels }
        ensures top { result ≡ top_of (channel_in_place self.now c).messages }
        ensures calm { IsCalm self.now }
    {
        self.waiting.top(c)
    }
}
