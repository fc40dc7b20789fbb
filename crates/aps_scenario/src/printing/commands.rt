//! The timed commands as an array of tables.
ghost use Rattle.std.specs.Prelude.{◌≡◌, ◌<◌, ◌≤◌, ℕ, [], length, IfOk, OnOk, All, IfSome};
ghost use Rattle.toml.specs.Data as values;
ghost use Rattle.toml.specs.Data.{Data, string, boolean, no_members};
ghost use Rattle.toml.specs.View.{view, table_view};
ghost use Rattle.aps_model.specs.declared.command.Call.TheVariants as call;
ghost use Rattle.aps_model.specs.declared.shape.Free.{Free as FreeType};
ghost use Rattle.aps_model.specs.declared.shape.Bankruptcy.{Bankruptcy as BankruptcyType};
ghost use Rattle.aps_model.specs.Valid.{IsCall, IsCommand};
ghost use Rattle.aps_scenario.specs.PrintedCommands.{call_members, command_table, thread_name};
ghost use Rattle.aps_scenario.specs.PrintedTable as spec;
ghost use Rattle.aps_scenario.specs.PrintedTable.{array_of_each, put_some};
ghost use Rattle.aps_scenario.specs.PrintedWords as words;
ghost use Rattle.aps_model.specs.Limits.{most_critical};

use crate::key::Key;
use crate::printing::table::{put_number, put_text, put_truth};
use crate::printing::words::{bankruptcy_word, call_word, free_word, text_of};
use aps_model::{
    Bankruptcy, Call, CommandRow, Free, Name, NoMemory, Scenario, ThreadId, ThreadRow,
};
use std::alloc::Global;
use toml::{Table, Value};

fn put_some_number(
    alloc: Global,
    table: &mut Table,
    key: Key,
    number: Option<u64>,
) -> Result<(), NoMemory>
    requires { IfSome number (λ n. n ≤ most_critical) }
    ensures { OnOk result (table_view table.new ≡ put_some key spec.number_data number (table_view table.old)) }
{
    match number {
        Some(number) => put_number(alloc, table, key, number),
        None => Ok(()),
    }
}

fn put_some_parts(
    alloc: Global,
    table: &mut Table,
    key: Key,
    parts: Option<u16>,
) -> Result<(), NoMemory>
    ensures { OnOk result (table_view table.new ≡ put_some key spec.number_data parts (table_view table.old)) }
{
    match parts {
        Some(parts) => put_number(alloc, table, key, u64::from(parts)),
        None => Ok(()),
    }
}

fn put_some_truth(
    alloc: Global,
    table: &mut Table,
    key: Key,
    truth: Option<bool>,
) -> Result<(), NoMemory>
    ensures { OnOk result (table_view table.new ≡ put_some key boolean truth (table_view table.old)) }
{
    match truth {
        Some(truth) => put_truth(alloc, table, key, truth),
        None => Ok(()),
    }
}

fn put_some_free(alloc: Global, table: &mut Table, free: Option<Free>) -> Result<(), NoMemory>
    ensures { OnOk result (table_view table.new
        ≡ put_some Key.Free (λ (word : FreeType). string (words.free_word word)) free (table_view table.old)) }
{
    match free {
        Some(free) => put_text(alloc, table, Key::Free, free_word(free)),
        None => Ok(()),
    }
}

fn put_some_bankruptcy(
    alloc: Global,
    table: &mut Table,
    bankruptcy: Option<Bankruptcy>,
) -> Result<(), NoMemory>
    ensures { OnOk result (table_view table.new
        ≡ put_some Key.Bankruptcy (λ (word : BankruptcyType). string (words.bankruptcy_word word)) bankruptcy (table_view table.old)) }
{
    match bankruptcy {
        Some(bankruptcy) => put_text(alloc, table, Key::Bankruptcy, bankruptcy_word(bankruptcy)),
        None => Ok(()),
    }
}

fn put_thread(
    alloc: Global,
    table: &mut Table,
    threads: &[ThreadRow],
    thread: ThreadId,
) -> Result<(), NoMemory>
    requires { thread < length threads.now }
    ensures { OnOk result (table_view table.new ≡ spec.put Key.Thread (string (thread_name threads.now thread)) (table_view table.old)) }
{
    let name = text_of(&threads[thread.index()].name);
    put_text(alloc, table, Key::Thread, name)
}

fn put_partition(alloc: Global, table: &mut Table, partition: &Name) -> Result<(), NoMemory>
    ensures { OnOk result (table_view table.new ≡ spec.put Key.Partition (string partition.now) (table_view table.old)) }
{
    put_text(alloc, table, Key::Partition, text_of(partition))
}

/// Puts the keys of a creation.
fn put_creation(
    alloc: Global,
    table: &mut Table,
    name: &Name,
    parent: &Name,
    budget: u16,
    critical: u64,
    max: u16,
) -> Result<(), NoMemory>
    requires { critical ≤ most_critical }
    ensures { OnOk result (table_view table.new
        ≡ call_members [] (call.Create name.now parent.now budget critical max) (table_view table.old)) }
{
    put_text(alloc, table, Key::Name, text_of(name))?;
    put_text(alloc, table, Key::Parent, text_of(parent))?;
    put_number(alloc, table, Key::Budget, u64::from(budget))?;
    put_number(alloc, table, Key::Critical, critical)?;
    put_number(alloc, table, Key::Max, u64::from(max))
}

/// Puts the keys of a modification.
fn put_modification(
    alloc: Global,
    table: &mut Table,
    partition: &Name,
    budget: Option<u16>,
    critical: Option<u64>,
    max: Option<u16>,
) -> Result<(), NoMemory>
    requires { IfSome critical (λ n. n ≤ most_critical) }
    ensures { OnOk result (table_view table.new ≡ call_members [] (call.Modify partition.now budget critical max) (table_view table.old)) }
{
    put_partition(alloc, table, partition)?;
    put_some_parts(alloc, table, Key::Budget, budget)?;
    put_some_number(alloc, table, Key::Critical, critical)?;
    put_some_parts(alloc, table, Key::Max, max)
}

/// Puts the keys of a setting of parameters.
fn put_parameters(
    alloc: Global,
    table: &mut Table,
    window: Option<u16>,
    free: Option<Free>,
    limit: Option<bool>,
    bankruptcy: Option<Bankruptcy>,
) -> Result<(), NoMemory>
    ensures { OnOk result (table_view table.new
        ≡ call_members [] (call.SetParameters window free limit bankruptcy) (table_view table.old)) }
{
    put_some_parts(alloc, table, Key::Window, window)?;
    put_some_free(alloc, table, free)?;
    put_some_truth(alloc, table, Key::Limit, limit)?;
    put_some_bankruptcy(alloc, table, bankruptcy)
}

/// Puts the keys that a command has beside its tick and its kind.
fn put_call(
    alloc: Global,
    table: &mut Table,
    threads: &[ThreadRow],
    call: &Call,
) -> Result<(), NoMemory>
    requires { (parts : ℕ) × IsCall parts (length threads.now) call.now }
    ensures { OnOk result (table_view table.new ≡ call_members threads.now call.now (table_view table.old)) }
{
    match call {
        Call::Create {
            name,
            parent,
            budget,
            critical,
            max,
        } => put_creation(alloc, table, name, parent, *budget, *critical, *max),
        Call::Modify {
            partition,
            budget,
            critical,
            max,
        } => put_modification(alloc, table, partition, *budget, *critical, *max),
        Call::Lookup { partition }
        | Call::QueryPartition { partition }
        | Call::Statistics { partition } => put_partition(alloc, table, partition),
        Call::QueryThread { thread }
        | Call::MarkCritical { thread }
        | Call::ClearCritical { thread } => put_thread(alloc, table, threads, *thread),
        Call::QueryParameters => Ok(()),
        Call::SetParameters {
            window,
            free,
            limit,
            bankruptcy,
        } => put_parameters(alloc, table, *window, *free, *limit, *bankruptcy),
    }
}

/// Puts the keys of a command into an empty table.
fn put_command(
    alloc: Global,
    table: &mut Table,
    threads: &[ThreadRow],
    row: &CommandRow,
) -> Result<(), NoMemory>
    requires row { (parts : ℕ) × (ticks : ℕ) × IsCommand parts ticks (length threads.now) row.now }
    requires empty { table_view table.old ≡ no_members }
    ensures { OnOk result (values.table (table_view table.new) ≡ command_table threads.now row.now) }
{
    put_number(alloc, table, Key::Tick, u64::from(row.tick))?;
    put_text(alloc, table, Key::Do, call_word(&row.call))?;
    put_call(alloc, table, threads, &row.call)
}

fn command_value(alloc: Global, threads: &[ThreadRow], row: &CommandRow) -> Result<Value, NoMemory>
    requires { (parts : ℕ) × (ticks : ℕ) × IsCommand parts ticks (length threads.now) row.now }
    ensures { IfOk result (λ value. view value ≡ command_table threads.now row.now) }
{
    let mut table = Table::new(alloc);
    put_command(alloc, &mut table, threads, row)?;
    Ok(Value::Table(table))
}

/// The commands as an array of tables.
pub fn commands_value(alloc: Global, scenario: &Scenario) -> Result<Value, NoMemory>
    ensures { IfOk result (λ value. view value ≡ array_of_each (command_table scenario.now.threads) scenario.now.commands) }
{
    let threads = scenario.threads();
    let commands = scenario.commands();
    let mut values = Vec::new(alloc);
    for row in commands {
        values.push(command_value(alloc, threads, row)?)?;
    }
    Ok(Value::Array(values))
}
