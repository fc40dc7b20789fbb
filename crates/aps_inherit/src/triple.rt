//! Who serves whom, and by which channel.
ghost use Rattle.std.specs.Prelude.{◌≡◌};

use aps_model::{ChannelId, ThreadId};
use std::marker::Model;

/// A server, the client for which it works, and the channel by which the client's message came.
#[derive(Clone, Copy, PartialEq, Eq)]
pub struct Triple {
    server: ThreadId,
    client: ThreadId,
    channel: ChannelId,
}

impl Model for Triple {
    ghost use Rattle.aps_model.specs.SchedulerState.{Triple as Plain};

    ghost Value = { Plain };

    ghost view = { λ t. record { server = t.server; client = t.client; channel = t.channel } };

    ghost inverse = { λ t. record { server = t.server; client = t.client; channel = t.channel } };
}

impl Triple {
    /// The server works for the client, whose message came by the channel.
    pub fn new(server: ThreadId, client: ThreadId, channel: ChannelId) -> Self
        ensures { result ≡ record { server = server; client = client; channel = channel } }
    {
        Triple {
            server,
            client,
            channel,
        }
    }

    /// Who works.
    pub fn server(&self) -> ThreadId
        ensures { result ≡ self.now.server }
    {
        self.server
    }

    /// For whom it works.
    pub fn client(&self) -> ThreadId
        ensures { result ≡ self.now.client }
    {
        self.client
    }

    /// By which channel the message came.
    pub fn channel(&self) -> ChannelId
        ensures { result ≡ self.now.channel }
    {
        self.channel
    }
}
