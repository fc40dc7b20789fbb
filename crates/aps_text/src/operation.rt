//! What an operation did. Its words are read byte by byte, and part where they differ.
ghost use Rattle.std.specs.Prelude.{◌≡◌};
ghost use Rattle.aps_model.specs.declared.entry.Done.TheVariants.{ReceiveGot};
ghost use Rattle.aps_text.specs.Reader.{ReadsAs, whole_word};
ghost use Rattle.aps_text.specs.Operation.{named_at, critical_at, join_at, send_at, holding_at, receive_at, repeat_at, run_at, later_at, done_at};

use crate::fields::{Reading, thread, word};
use aps_model::{Done, ThreadId};

/// What an operation did, and a space.
#[tactic(auto, unfolding(crate::specs::Operation::done_at))]
pub fn done(bytes: &[u8]) -> Reading<Done>
    ensures { ReadsAs (λ x. (x.0, x.1.now)) result (done_at bytes.now) }
{
    match bytes {
        [b'-', rest @ ..] => constant(rest, b" ", Done::Nothing),
        [b'c', rest @ ..] => critical(rest),
        [b'e', rest @ ..] => constant(rest, b"xit ", Done::Exit),
        [b'j', rest @ ..] => join(rest),
        _ => later(bytes),
    }
}

// One of those whose words begin with a byte from `p` on.
#[tactic(auto, unfolding(crate::specs::Operation::later_at))]
fn later(bytes: &[u8]) -> Reading<Done>
    ensures { ReadsAs (λ x. (x.0, x.1.now)) result (later_at bytes.now) }
{
    match bytes {
        [b'p', rest @ ..] => constant(rest, b"riority ", Done::Priority),
        [b'r', rest @ ..] => run(rest),
        [b's', rest @ ..] => send(rest),
        [b'y', rest @ ..] => constant(rest, b"ield ", Done::Yield),
        _ => Err(bytes),
    }
}

// This, where the bytes go on with the rest of its word.
#[inline(always)]
fn constant<'a>(bytes: &'a [u8], rest_of_word: &[u8], done: Done) -> Reading<'a, Done>
    ensures { ReadsAs (λ x. (x.0, x.1.now)) result (whole_word rest_of_word.now done bytes.now) }
{
    Ok((done, word(bytes, rest_of_word)?))
}

// Behind `c`.
#[tactic(auto, unfolding(crate::specs::Operation::critical_at))]
fn critical(bytes: &[u8]) -> Reading<Done>
    ensures { ReadsAs (λ x. (x.0, x.1.now)) result (critical_at bytes.now) }
{
    let rest = word(bytes, b"ritical:o")?;
    if let [b'n', rest @ ..] = rest {
        return constant(rest, b" ", Done::CriticalOn);
    }
    constant(rest, b"ff ", Done::CriticalOff)
}

// Behind `j`.
#[tactic(auto, unfolding(crate::specs::Operation::join_at))]
fn join(bytes: &[u8]) -> Reading<Done>
    ensures { ReadsAs (λ x. (x.0, x.1.now)) result (join_at bytes.now) }
{
    let rest = word(bytes, b"oin")?;
    if let [b':', rest @ ..] = rest {
        return constant(rest, b"none ", Done::JoinNone);
    }
    constant(rest, b" ", Done::Join)
}

// Behind `s`.
#[tactic(auto, unfolding(crate::specs::Operation::send_at))]
fn send(bytes: &[u8]) -> Reading<Done>
    ensures { ReadsAs (λ x. (x.0, x.1.now)) result (send_at bytes.now) }
{
    let rest = word(bytes, b"end:")?;
    if let [b'b', rest @ ..] = rest {
        return constant(rest, b"locked ", Done::SendBlocked);
    }
    let (server, rest) = thread(rest)?;
    Ok((Done::SendTo(ThreadId::at(server as usize)), rest))
}

// Behind `r`: `run`, or a word that goes on with `e`.
#[tactic(auto, unfolding(crate::specs::Operation::run_at))]
fn run(bytes: &[u8]) -> Reading<Done>
    ensures { ReadsAs (λ x. (x.0, x.1.now)) result (run_at bytes.now) }
{
    if let [b'u', rest @ ..] = bytes {
        return constant(rest, b"n ", Done::Run);
    }
    let rest = word(bytes, b"e")?;
    if let [b'c', rest @ ..] = rest {
        return receive(rest);
    }
    repeat(word(rest, b"p")?)
}

// Behind `rec`.
#[tactic(auto, unfolding(crate::specs::Operation::receive_at))]
fn receive(bytes: &[u8]) -> Reading<Done>
    ensures { ReadsAs (λ x. (x.0, x.1.now)) result (receive_at bytes.now) }
{
    let rest = word(bytes, b"eive:")?;
    match rest {
        [b'b', rest @ ..] => constant(rest, b"locked ", Done::ReceiveBlocked),
        [b'h', rest @ ..] => holding(rest),
        _ => got(rest),
    }
}

// Behind `receive:h`.
#[tactic(auto, unfolding(crate::specs::Operation::holding_at))]
fn holding(bytes: &[u8]) -> Reading<Done>
    ensures { ReadsAs (λ x. (x.0, x.1.now)) result (holding_at bytes.now) }
{
    let (client, rest) = thread(word(bytes, b"olding:")?)?;
    Ok((Done::ReceiveHolding(ThreadId::at(client as usize)), rest))
}

// Behind `receive:`, where a thread's number follows.
fn got(bytes: &[u8]) -> Reading<Done>
    ensures { ReadsAs (λ x. (x.0, x.1.now)) result (named_at ReceiveGot bytes.now) }
{
    let (client, rest) = thread(bytes)?;
    Ok((Done::ReceiveGot(ThreadId::at(client as usize)), rest))
}

// Behind `rep`: `reply` or `repeat`.
#[tactic(auto, unfolding(crate::specs::Operation::repeat_at))]
fn repeat(bytes: &[u8]) -> Reading<Done>
    ensures { ReadsAs (λ x. (x.0, x.1.now)) result (repeat_at bytes.now) }
{
    let [b'l', rest @ ..] = bytes else {
        return constant(bytes, b"eat ", Done::Repeat);
    };
    let rest = word(rest, b"y:")?;
    if let [b'n', rest @ ..] = rest {
        return constant(rest, b"one ", Done::ReplyNoClient);
    }
    let (client, rest) = thread(rest)?;
    Ok((Done::ReplyFreed(ThreadId::at(client as usize)), rest))
}
