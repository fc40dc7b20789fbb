//! The program of a thread.
ghost use Rattle.std.specs.Prelude.{◌≡◌, ◌≤◌, [], length};
ghost use Rattle.aps_model.specs.Limits.{most_channels, most_operations};
ghost use Rattle.toml.specs.View.{view, table_view, array_view};
ghost use Rattle.aps_model.specs.Program.{is_last_op};
ghost use Rattle.aps_scenario.specs.Refusal.{ReadsOrFails};
ghost use Rattle.aps_scenario.specs.Program as spec;

use crate::key::Key;
use crate::kind::Kind;
use crate::operation::{OperationFault, operation_of};
use crate::refusal::{Failure, Finding, Part, Place};
use crate::row::array_at;
use aps_model::limits::MOST_OPERATIONS;
use aps_model::{Name, Op, Program};
use std::alloc::Global;
use toml::value::Array;
use toml::{Table, Value};

fn is_last_op(op: &Op) -> bool
    ensures { result ≡ is_last_op op.now }
{
    match op {
        Op::Forever | Op::Repeat | Op::Exit => true,
        _ => false,
    }
}

fn fault_kind(index: u16, fault: OperationFault) -> Kind
    ensures { result ≡ spec.fault_kind index fault }
{
    match fault {
        OperationFault::Unknown => Kind::UnknownName,
        OperationFault::Bad => Kind::BadOperation { at: index },
    }
}

// Operation `index` of `count`: a last operation stands at the end and nowhere else.
fn operation(
    value: &Value,
    index: u16,
    count: usize,
    channels: &[Name],
    joinable: &[Name],
) -> Result<Op, Kind>
    requires { length channels.now ≤ most_channels }
    ensures { result ≡ spec.operation_in count channels.now joinable.now index (view value.now) }
{
    let Some(text) = value.as_str() else {
        return Err(Kind::WrongKind);
    };
    let op = match operation_of(text, channels, joinable) {
        Ok(op) => op,
        Err(fault) => return Err(fault_kind(index, fault)),
    };
    if is_last_op(&op) == (usize::from(index) + 1 == count) {
        Ok(op)
    } else {
        Err(Kind::BadOperation { at: index })
    }
}

// The operation after these ones.
fn next_operation(
    ops: &[Op],
    value: &Value,
    count: usize,
    channels: &[Name],
    joinable: &[Name],
    thread: u16,
) -> Result<Op, Finding>
    requires few_channels { length channels.now ≤ most_channels }
    requires few { length ops.now ≤ most_operations }
    ensures { result ≡ spec.next_operation count channels.now joinable.now thread ops.now (view value.now) }
{
    let index = ops.len() as u16;
    match operation(value, index, count, channels, joinable) {
        Ok(op) => Ok(op),
        Err(kind) => Err(Finding {
            kind,
            part: Part::Operation(thread, index),
        }),
    }
}

// The operations of these elements, `count` in all.
fn operations_of(
    alloc: Global,
    array: &Array,
    count: usize,
    channels: &[Name],
    joinable: &[Name],
    thread: u16,
) -> Result<Vec<Op>, Failure>
    requires few_channels { length channels.now ≤ most_channels }
    requires few { length array.now.items ≤ most_operations }
    ensures { ReadsOrFails (λ ops. ops.items) result (spec.operations_from count channels.now joinable.now thread [] (array_view array.now)) }
{
    let mut ops = Vec::new(alloc);
    for value in array {
        let op = next_operation(&ops, value, count, channels, joinable, thread)?;
        ops.push(op)?;
    }
    Ok(ops)
}

/// The program of the thread with this index, where these are the channels and the names that may be joined.
#[tactic(auto, unfolding(crate::specs::Program::program_at), using(crate::proofs::Tables::items_len_view))]
pub fn program_at(
    alloc: Global,
    table: &Table,
    thread: u16,
    channels: &[Name],
    joinable: &[Name],
) -> Result<Program, Failure>
    requires { length channels.now ≤ most_channels }
    ensures { ReadsOrFails (λ program. program) result (spec.program_at channels.now joinable.now thread (table_view table.now)) }
{
    let array = array_at(
        table,
        Place::Thread(thread),
        Key::Program,
        1,
        MOST_OPERATIONS,
    )?;
    let ops = operations_of(alloc, array, array.len(), channels, joinable, thread)?;
    Ok(Program::new(ops))
}
