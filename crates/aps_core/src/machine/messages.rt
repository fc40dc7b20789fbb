//! Send, receive and reply.
ghost use Rattle.std.specs.Prelude.{◌≡◌, ◌<◌, ◌≤◌, length};
ghost use Rattle.aps_model.specs.Inherit.{client_of};
ghost use Rattle.aps_model.specs.Limits.{last_moment};
ghost use Rattle.aps_model.specs.Messages.{received, replied, sent};
ghost use Rattle.aps_model.specs.SchedulerState.{channel_at};
ghost use Rattle.aps_core.specs.Conversation.{received_in, replied_in, sent_in, with_channels};
ghost use Rattle.aps_core.specs.Room.{HasRoomForOperation};

use super::Machine;
use aps_channel::{Received, Replied, Sent};
use aps_model::{ChannelId, Done, Nanos, Scenario, State, ThreadId};

impl Machine {
    /// A message of the thread comes to the channel, with the priority that the thread has now. What servers inherit
    /// follows: from the thread where it is served at once, else from what waits at the channel.
    fn send_message(&mut self, x: ThreadId, c: ChannelId) -> Sent
        requires channel { c < length self.old.channels }
        requires room { HasRoomForOperation self.old x }
        ensures answer { result ≡ (sent_in self.old x c).answer }
        ensures state { self.new ≡ with_channels self.old (sent_in self.old x c).state }
    {
        let priority = self.facts_of(x).priority;
        let sent = self.channels.send(c, x, priority);
        match sent {
            Sent::Delivered(server) => self.inherit.serve(server, x, c),
            Sent::Blocked => {
                let top = self.channels.top(c);
                self.inherit.raise(c, top);
            }
        }
        sent
    }

    /// The thread receives at the channel. What servers inherit follows: the thread from the sender of the message that
    /// it got, and all from what is left at the channel.
    fn receive_message(&mut self, x: ThreadId, c: ChannelId) -> Received
        requires channel { c < length self.old.channels }
        requires room { HasRoomForOperation self.old x }
        ensures answer { result ≡ (received_in self.old x c).answer }
        ensures state { self.new ≡ with_channels self.old (received_in self.old x c).state }
    {
        let received = self.channels.receive(c, x);
        if let Received::Got(client) = received {
            let left = self.channels.top(c);
            self.inherit.raise(c, left);
            self.inherit.serve(x, client, c);
        }
        received
    }

    /// The thread replies, and inherits nothing then.
    fn make_reply(&mut self, x: ThreadId) -> Replied
        requires room { HasRoomForOperation self.old x }
        ensures answer { result ≡ (replied_in self.old x).answer }
        ensures state { self.new ≡ with_channels self.old (replied_in self.old x).state }
    {
        let replied = self.channels.reply(x);
        if let Replied::Freed(_) = replied {
            self.inherit.end(x);
        }
        replied
    }

    /// A send of the thread to the channel. Where somebody waits there for a message, that thread begins to serve the
    /// sender and goes on; else the message waits, with the priority that the sender has now.
    #[inline(never)]
    pub fn send(&mut self, scenario: &Scenario, x: ThreadId, c: ChannelId, now: Nanos) -> Done
        requires now { now ≤ last_moment }
        requires channel { c < length self.old.channels }
        requires room { HasRoomForOperation self.old x }
        ensures { sent scenario.now self.old x c now (channel_at self.old c).receivers ≡ record { state = self.new; done = result } }
    {
        match self.send_message(x, c) {
            Sent::Blocked => {
                self.set_state(x, State::Sending(c));
                Done::SendBlocked
            }
            Sent::Delivered(server) => {
                self.set_state(x, State::Replying(server));
                self.go_on(scenario, server, now);
                Done::SendTo(server)
            }
        }
    }

    /// A receive of the thread at the channel. A thread that holds a client gets no other one. Where a message waits,
    /// the thread begins to serve its sender; else the thread waits.
    #[inline(never)]
    pub fn receive(&mut self, x: ThreadId, c: ChannelId) -> Done
        requires channel { c < length self.old.channels }
        requires room { HasRoomForOperation self.old x }
        ensures { received self.old x c (client_of self.old.triples x) ≡ record { state = self.new; done = result } }
    {
        match self.receive_message(x, c) {
            Received::Holding { client } => Done::ReceiveHolding(client),
            Received::Got(sender) => {
                self.set_state(sender, State::Replying(x));
                Done::ReceiveGot(sender)
            }
            Received::Blocked => {
                self.set_state(x, State::Receiving(c));
                Done::ReceiveBlocked
            }
        }
    }

    /// A reply of the thread, which serves nobody then; the client that it held, if any, goes on.
    #[inline(never)]
    pub fn reply(&mut self, scenario: &Scenario, x: ThreadId, now: Nanos) -> Done
        requires now { now ≤ last_moment }
        requires room { HasRoomForOperation self.old x }
        ensures { replied scenario.now self.old x now (client_of self.old.triples x) ≡ record { state = self.new; done = result } }
    {
        match self.make_reply(x) {
            Replied::NoClient => Done::ReplyNoClient,
            Replied::Freed(client) => {
                self.go_on(scenario, client, now);
                Done::ReplyFreed(client)
            }
        }
    }
}
