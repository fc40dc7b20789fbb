//! The calls of a thread: each from the end of its send to its reply, or to the server's exit.
ghost use Rattle.std.specs.Prelude.{◌≡◌, ◌≤◌, OnOk};
ghost use Rattle.view_latency.specs.Calls as spec;
ghost use Rattle.view_latency.specs.News.{time_of};
ghost use Rattle.aps_model.specs.Limits.{longest_tick};

use crate::news::News;
use aps_model::{ChannelId, Nanos, NoMemory};
use std::alloc::Global;
use std::marker::Model;

/// A call, as far as it goes without its end: to which channel, and when the send ended (ns). How long (ns) the message waited until
/// a server took it, which is 0 where none has yet; and how long that server ran while it held the thread.
#[derive(Clone, Copy, PartialEq, Eq)]
pub struct Asked {
    pub channel: ChannelId,
    pub begin: Nanos,
    pub queued: Nanos,
    pub served: Nanos,
}

/// A call that was answered, and when (ns).
#[derive(Clone, Copy, PartialEq, Eq)]
pub struct Call {
    pub asked: Asked,
    pub end: Nanos,
}

/// The calls of a thread: those that were answered, in order, and the one that goes on, if one does.
#[derive(Drop)]
pub struct Calls {
    ended: Vec<Call>,
    current: Option<Asked>,
}

impl Model for Calls {
    ghost use Rattle.view_latency.specs.Calls.{Calls as Plain};

    ghost Value = { Plain };

    ghost view = { λ calls. record { ended = calls.ended.items; current = calls.current } };
}

impl Calls {
    /// No call.
    pub fn none(alloc: Global) -> Calls
        ensures { result ≡ spec.no_calls }
    {
        Calls {
            ended: Vec::new(alloc),
            current: None,
        }
    }

    /// The calls that were answered, in order.
    pub fn ended(&self) -> &[Call]
        ensures { result.now ≡ self.now.ended }
    {
        self.ended.as_slice()
    }

    /// The call that goes on.
    pub fn current(&self) -> Option<Asked>
        ensures { result ≡ self.now.current }
    {
        self.current
    }

    /// An entry that ends at this moment tells this. `NoMemory` comes where memory runs out.
    pub fn add(&mut self, moment: Nanos, news: &News) -> Result<(), NoMemory>
        requires room { spec.HasRoomInCall self.old.current }
        requires short { time_of news.now ≤ longest_tick }
        ensures { OnOk result (self.new ≡ spec.with_news self.old moment news.now) }
    {
        match news {
            News::Nothing => {}
            News::Sent(channel) => self.current = Some(asked_at(*channel, moment)),
            News::Taken => self.current = taken_at(moment, &self.current),
            News::Served(ns) => self.current = served_for(*ns, &self.current),
            News::Answered(ns) => return self.close(*ns, moment),
        }
        Ok(())
    }

    /// The call that goes on, if one does, was served for so much more, and is answered at this moment.
    fn close(&mut self, ns: Nanos, moment: Nanos) -> Result<(), NoMemory>
        requires room { spec.HasRoomInCall self.old.current }
        requires short { ns ≤ longest_tick }
        ensures { OnOk result (self.new ≡ spec.closed self.old ns moment) }
    {
        if let Some(asked) = served_for(ns, &self.current) {
            self.ended.push(Call { asked, end: moment })?;
        }
        self.current = None;
        Ok(())
    }
}

/// The call that begins at this moment.
fn asked_at(channel: ChannelId, moment: Nanos) -> Asked
    ensures { result ≡ spec.asked_at channel moment }
{
    Asked {
        channel,
        begin: moment,
        queued: 0,
        served: 0,
    }
}

/// The call whose message is taken at this moment.
fn taken_at(moment: Nanos, current: &Option<Asked>) -> Option<Asked>
    ensures { result ≡ spec.taken_at moment current.now }
{
    match current {
        Some(asked) => Some(Asked {
            queued: moment.saturating_sub(asked.begin),
            ..*asked
        }),
        None => None,
    }
}

/// The call that is served for so much more.
fn served_for(ns: Nanos, current: &Option<Asked>) -> Option<Asked>
    requires room { spec.HasRoomInCall current.now }
    requires short { ns ≤ longest_tick }
    ensures { result ≡ spec.served_for ns current.now }
{
    match current {
        Some(asked) => Some(Asked {
            served: asked.served + ns,
            ..*asked
        }),
        None => None,
    }
}
