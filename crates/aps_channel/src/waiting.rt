//! The messages that wait at channels.
ghost use Rattle.std.specs.Prelude.{◌≡◌, ◌≢◌, ℕ, ◌<◌, ◌++◌, ◌&&◌, [], ◌∷◌, length, min, replicate, IfOk};
ghost use Rattle.laws_runs.specs.Waits.{times_sent};
ghost use Rattle.aps_levels.specs.Levels.{has_level, level_count};
ghost use Rattle.aps_model.specs.Inherit.{top_of};
ghost use Rattle.aps_model.specs.Limits.{most_threads};
ghost use Rattle.aps_channel.specs.Waiting.{first_sender, messages_at, with_messages, without_of};

use crate::lines::{Lines, MOST_THREADS};
use aps_levels::Levels;
use aps_model::{ChannelId, NoMemory, ThreadId};
use slab::Slab;
use std::alloc::{AllocError, Global};
use std::marker::Model;

/// How many levels a channel has. The level of a priority is the greatest priority less it, so that the least level in
/// use is the greatest priority that waits.
const LEVELS: usize = 256;

/// The greatest priority.
const GREATEST: u8 = 255;

/// How many keys lines can name.
const MOST_KEYS: usize = 65535;

/// The record of a message that waits.
#[derive(Clone, Copy, PartialEq, Eq)]
pub struct MessageRecord {
    pub sender: ThreadId,
    /// the priority with which the message came
    pub priority: u8,
}

/// The messages that wait at each channel, at most one of each thread. The record of a message stands in a slab, and lines
/// name it by its key. Contracts see the messages in order of arrival; they are kept so, and by level too, and no call
/// walks along them.
#[derive(Drop)]
pub struct Waiting {
    /// the keys of the messages at each channel
    arrivals: Lines,
    /// the keys of the messages at each level of each channel, the levels of one channel together
    levels: Lines,
    /// the levels at which messages wait, for each channel
    in_use: Vec<Levels>,
    /// what is known of each message
    records: Slab<MessageRecord>,
    /// how many threads there are
    threads: u16,
}

impl Model for Waiting {
    ghost use Rattle.aps_channel.specs.Waiting.{Waiting as Plain};
    ghost use Rattle.aps_channel.specs.Queues.{messages_of};
    ghost use Rattle.aps_channel.specs.Records.{AreMessagesKept};

    ghost Value = { Plain };

    ghost view = { λ w. record { messages = messages_of w.records w.arrivals.lines; threads = w.threads } };

    ghost invariant = { λ w. AreMessagesKept w.arrivals w.levels w.in_use.items w.records w.threads };
}

impl Waiting {
    /// No messages, with room for one of each thread, of which there are at most 1,024. `NoMemory` comes where there is no such room.
    pub fn new(alloc: Global, channels: u16, threads: u16) -> Result<Waiting, NoMemory>
        ensures { IfOk result (λ w. w ≡ record { messages = replicate channels []; threads = min threads most_threads }) }
    {
        let channels = channels as usize;
        let threads = threads.min(MOST_THREADS);
        let records = Slab::with_capacity(alloc, threads as usize)?;
        let keys = key_count(records.capacity())?;
        let arrivals = Lines::new(alloc, channels, keys)?;
        let levels = Lines::new(alloc, LEVELS * channels, keys)?;
        let in_use = vec![in alloc; Levels::none(); channels]?;
        Ok(Waiting {
            arrivals,
            levels,
            in_use,
            records,
            threads,
        })
    }

    /// A message of this priority comes to the channel and waits; none of its sender waits yet.
    pub fn push(&mut self, c: ChannelId, sender: ThreadId, priority: u8)
        requires channel { c < length self.old.messages }
        requires thread { sender < self.old.threads }
        requires free { (d : ℕ) → times_sent sender (messages_at self.old d) ≡ 0 }
        ensures { self.new ≡ with_messages self.old c (messages_at self.old c ++ (record { sender = sender; priority = priority }) ∷ []) }
    {
        let c = c.index();
        let level = (GREATEST - priority) as usize;
        let message = MessageRecord { sender, priority };
        let key = self.records.insert_reserved(message) as u16;
        self.arrivals.push_back(c, key);
        self.levels.push_back(LEVELS * c + level, key);
        let set = self.in_use[c];
        self.in_use[c] = set.with(level);
    }

    /// The greatest priority that waits at the channel. There is none exactly where no message waits.
    pub fn top(&self, c: ChannelId) -> Option<u8>
        requires { c < length self.now.messages }
        ensures { result ≡ top_of (messages_at self.now c) }
    {
        match self.in_use[c.index()].least() {
            None => None,
            Some(level) => Some(GREATEST - level as u8),
        }
    }

    /// The message of the greatest priority, and of these the earliest, waits no longer; the answer is its sender. There
    /// is none exactly where no message waits.
    pub fn take_first(&mut self, c: ChannelId) -> Option<ThreadId>
        requires { c < length self.old.messages }
        ensures sender { result ≡ first_sender (messages_at self.old c) }
        ensures left { self.new ≡ with_messages self.old c (without_of result (messages_at self.old c)) }
    {
        let c = c.index();
        let set = self.in_use[c];
        let level = set.least()?;
        let place = LEVELS * c + level;
        let key = self.levels.first(place)?;
        self.arrivals.remove(c, key);
        self.levels.remove(place, key);
        let is_left = self.levels.first(place).is_some();
        self.in_use[c] = kept_if(set, level, is_left);
        let message = self.records.remove(key as usize);
        Some(message.sender)
    }
}

/// The number of keys, which lines can name. `NoMemory` comes where there are too many for that.
fn key_count(keys: usize) -> Result<u16, NoMemory>
    ensures same { IfOk result (λ n. n ≡ keys) }
    ensures few { IfOk result (λ n. n < 65536) }
{
    if keys > MOST_KEYS {
        return Err(AllocError);
    }
    Ok(keys as u16)
}

/// The set of levels, in which this one is kept or not.
fn kept_if(set: Levels, level: usize, is_kept: bool) -> Levels
    requires { level < level_count }
    ensures at_level { has_level result level ≡ (has_level set level && is_kept) }
    ensures beside { (k : ℕ) → k ≢ level → has_level result k ≡ has_level set k }
{
    if is_kept { set } else { set.without(level) }
}
