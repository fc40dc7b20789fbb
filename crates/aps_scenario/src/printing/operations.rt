//! The operations of a program as texts.
ghost use Rattle.std.specs.Prelude.{◌≡◌, ◌<◌, ◌++◌, length, string_bytes, IfOk, OnOk};
ghost use Rattle.toml.specs.View.{view};
ghost use Rattle.aps_model.specs.Program.{IsOp, IsProgram};
ghost use Rattle.aps_scenario.specs.PrintedOperation.{channel_name, operation_text};
ghost use Rattle.aps_scenario.specs.PrintedThreads.{program_array};
ghost use Rattle.std.specs.Prelude.{List, ℕ};

use crate::printing::words::text_of;
use aps_model::{ChannelId, Name, NoMemory, Op};
use std::alloc::Global;
use std::fmt::Write;
use toml::Value;

fn name_of_channel(channels: &[Name], channel: ChannelId) -> &str
    requires { channel < length channels.now }
    ensures { result.now ≡ channel_name channels.now channel }
{
    text_of(&channels[channel.index()])
}

/// Adds an operation as text.
fn add_operation(out: &mut String, channels: &[Name], op: &Op) -> Result<(), NoMemory>
    requires { (names : List (List ℕ)) × IsOp (length channels.now) names op.now }
    ensures { OnOk result (string_bytes out.new ≡ string_bytes out.old ++ operation_text channels.now op.now) }
{
    match *op {
        Op::Run(ns) => write!(out, "run {ns}"),
        Op::Forever => out.push_str("run forever"),
        Op::Sleep(ns) => write!(out, "sleep {ns}"),
        Op::Yield => out.push_str("yield"),
        Op::Send(channel) => add_named(out, "send ", name_of_channel(channels, channel)),
        Op::Receive(channel) => add_named(out, "receive ", name_of_channel(channels, channel)),
        Op::Reply => out.push_str("reply"),
        Op::Join(name) => add_named(out, "join ", text_of(&name)),
        Op::Priority(n) => write!(out, "priority {n}"),
        Op::CriticalOn => out.push_str("critical on"),
        Op::CriticalOff => out.push_str("critical off"),
        Op::Repeat => out.push_str("repeat"),
        Op::Exit => out.push_str("exit"),
    }
}

/// Adds a word and the name behind it.
fn add_named(out: &mut String, word: &str, name: &str) -> Result<(), NoMemory>
    ensures { OnOk result (string_bytes out.new ≡ string_bytes out.old ++ word.now ++ name.now) }
{
    out.push_str(word)?;
    out.push_str(name)
}

/// An operation as text.
fn operation_text(alloc: Global, channels: &[Name], op: &Op) -> Result<String, NoMemory>
    requires { (names : List (List ℕ)) × IsOp (length channels.now) names op.now }
    ensures { IfOk result (λ text. string_bytes text ≡ operation_text channels.now op.now) }
{
    let mut text = String::new(alloc);
    add_operation(&mut text, channels, op)?;
    Ok(text)
}

/// The operations of a program as an array of texts.
pub fn program_value(alloc: Global, channels: &[Name], ops: &[Op]) -> Result<Value, NoMemory>
    requires { (names : List (List ℕ)) × IsProgram (length channels.now) names ops.now }
    ensures { IfOk result (λ value. view value ≡ program_array channels.now ops.now) }
{
    let mut values = Vec::new(alloc);
    for op in ops {
        values.push(Value::String(operation_text(alloc, channels, op)?))?;
    }
    Ok(Value::Array(values))
}
