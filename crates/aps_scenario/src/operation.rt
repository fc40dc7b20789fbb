//! One operation of a program.
ghost use Rattle.std.specs.Prelude.{◌≡◌, ◌≤◌, length, IfOk, IfSome, option_map};
ghost use Rattle.aps_scenario.specs.Operation as spec;
ghost use Rattle.aps_model.specs.declared.program.Op.TheVariants as op;
ghost use Rattle.aps_model.specs.Limits.{last_moment, most_channels};

use crate::channels::is_among;
use aps_model::limits::LAST_MOMENT;
use aps_model::{ChannelId, Name, Op};

/// Why a text is no operation.
#[derive(Clone, Copy)]
pub enum OperationFault {
    /// It names what isn't known.
    Unknown,
    /// It has the form of no operation.
    Bad,
}

// The text behind these bytes.
fn after_word<'a>(text: &'a [u8], word: &[u8]) -> Option<&'a [u8]>
    ensures { option_map (λ rest. rest.now) result ≡ spec.after_word word.now text.now }
{
    let mut rest = text;
    for expected in word {
        let [byte, after @ ..] = rest else {
            return None;
        };
        if byte != expected {
            return None;
        }
        rest = after;
    }
    Some(rest)
}

// The digits that go on a number, which is at most `most`.
fn number_after(digits: &[u8], most: u64, first: u64) -> Option<u64>
    requires within { first ≤ most }
    requires most { most ≤ last_moment }
    ensures is { result ≡ spec.number_after most first digits.now }
    ensures within { IfSome result (λ n. n ≤ most) }
{
    let mut value = first;
    let mut rest = digits;
    while let [byte, after @ ..] = rest {
        if !byte.is_ascii_digit() {
            return None;
        }
        let more = value * 10 + u64::from(*byte - b'0');
        if more > most {
            return None;
        }
        value = more;
        rest = after;
    }
    Some(value)
}

// A number from 1 to `most`, with no sign and no leading zero.
fn number(text: &[u8], most: u64) -> Option<u64>
    requires { most ≤ last_moment }
    ensures is { result ≡ spec.number most text.now }
    ensures within { IfSome result (λ n. n ≤ most) }
{
    match text {
        [digit @ b'1'..=b'9', rest @ ..] if u64::from(*digit - b'0') <= most => {
            number_after(rest, most, u64::from(*digit - b'0'))
        }
        _ => None,
    }
}

fn run(text: &[u8]) -> Result<Op, OperationFault>
    ensures { result ≡ spec.run_of_text text.now }
{
    match number(text, LAST_MOMENT) {
        Some(ns) => Ok(Op::Run(ns)),
        None if text == b"forever".as_slice() => Ok(Op::Forever),
        None => Err(OperationFault::Bad),
    }
}

fn sleep(text: &[u8]) -> Result<Op, OperationFault>
    ensures { result ≡ spec.sleep text.now }
{
    match number(text, LAST_MOMENT) {
        Some(ns) => Ok(Op::Sleep(ns)),
        None => Err(OperationFault::Bad),
    }
}

fn priority(text: &[u8]) -> Result<Op, OperationFault>
    ensures { result ≡ spec.priority text.now }
{
    match number(text, 255) {
        Some(priority) => Ok(Op::Priority(priority as u8)),
        None => Err(OperationFault::Bad),
    }
}

fn channel_named(channels: &[Name], name: &Name) -> Option<usize>
    ensures { result ≡ spec.channel_named channels.now name.now }
{
    channels
        .iter()
        .position(|other| other.text() == name.text())
}

// The channel of this name.
fn channel(text: &[u8], channels: &[Name]) -> Result<ChannelId, OperationFault>
    requires { length channels.now ≤ most_channels }
    ensures { result ≡ spec.channel channels.now text.now }
{
    let Ok(name) = Name::new(text) else {
        return Err(OperationFault::Bad);
    };
    match channel_named(channels, &name) {
        Some(place) => Ok(ChannelId::at(place)),
        None => Err(OperationFault::Unknown),
    }
}

fn join(text: &[u8], joinable: &[Name]) -> Result<Op, OperationFault>
    ensures { result ≡ spec.join joinable.now text.now }
{
    let Ok(name) = Name::new(text) else {
        return Err(OperationFault::Bad);
    };
    if is_among(joinable, &name) {
        Ok(Op::Join(name))
    } else {
        Err(OperationFault::Unknown)
    }
}

// An operation that is always the same text.
fn constant(text: &str) -> Result<Op, OperationFault>
    ensures { result ≡ spec.constant text.now }
{
    match text {
        "yield" => Ok(Op::Yield),
        "reply" => Ok(Op::Reply),
        "critical on" => Ok(Op::CriticalOn),
        "critical off" => Ok(Op::CriticalOff),
        "repeat" => Ok(Op::Repeat),
        "exit" => Ok(Op::Exit),
        _ => Err(OperationFault::Bad),
    }
}

#[tactic(auto, using(crate::proofs::Operations::behind_some, crate::proofs::Operations::behind_none))]
fn named_or_constant(text: &str, channels: &[Name], joinable: &[Name]) -> Result<Op, OperationFault>
    requires { length channels.now ≤ most_channels }
    ensures { result ≡ spec.named_or_constant channels.now joinable.now text.now }
{
    let bytes = text.as_bytes();
    if let Some(name) = after_word(bytes, b"send ") {
        return Ok(Op::Send(channel(name, channels)?));
    }
    if let Some(name) = after_word(bytes, b"receive ") {
        return Ok(Op::Receive(channel(name, channels)?));
    }
    if let Some(name) = after_word(bytes, b"join ") {
        return join(name, joinable);
    }
    constant(text)
}

/// The operation that a text is, where these are the channels and the names that may be joined.
#[tactic(auto, using(crate::proofs::Operations::behind_some, crate::proofs::Operations::behind_none))]
pub fn operation_of(text: &str, channels: &[Name], joinable: &[Name]) -> Result<Op, OperationFault>
    requires { length channels.now ≤ most_channels }
    ensures { result ≡ spec.operation_of channels.now joinable.now text.now }
{
    let bytes = text.as_bytes();
    if let Some(rest) = after_word(bytes, b"run ") {
        return run(rest);
    }
    if let Some(rest) = after_word(bytes, b"sleep ") {
        return sleep(rest);
    }
    if let Some(rest) = after_word(bytes, b"priority ") {
        return priority(rest);
    }
    named_or_constant(text, channels, joinable)
}
