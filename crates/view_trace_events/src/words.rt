//! Names and numbers in traces.
ghost use Rattle.std.specs.Prelude.{◌≡◌, ◌++◌, string_bytes, OnOk};
ghost use Rattle.view_samples.specs.Csv.{bit};
ghost use Rattle.view_trace_events.specs.Time.{us_text};
ghost use Rattle.view_trace_events.specs.Words as spec;

use aps_model::{ChannelId, Name, Nanos, NoMemory};
use std::fmt::Write;
use view_texts::text_of;

/// A time in microseconds, with three decimals, so that no nanosecond is lost.
pub fn add_us(out: &mut String, ns: Nanos) -> Result<(), NoMemory>
    ensures { OnOk result (string_bytes out.new ≡ string_bytes out.old ++ us_text ns) }
{
    let whole = ns / 1000;
    let tenths = ns / 100 % 10;
    let hundredths = ns / 10 % 10;
    let thousandths = ns % 10;
    write!(out, "{whole}.{tenths}{hundredths}{thousandths}")
}

/// The name of a channel.
pub fn channel_name(channels: &[Name], c: ChannelId) -> &str
    ensures { result.now ≡ spec.channel_name channels.now c }
{
    match channels.get(c.index()) {
        Some(name) => text_of(name),
        None => "",
    }
}

/// 1 where it is so, and else 0.
pub fn bit(is_so: bool) -> u8
    ensures { result ≡ bit is_so }
{
    if is_so { 1 } else { 0 }
}
