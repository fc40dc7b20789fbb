//! The channels and the threads as arrays of tables.
ghost use Rattle.std.specs.Prelude.{◌≡◌, ◌<◌, length, IfOk, OnOk};
ghost use Rattle.toml.specs.Data as values;
ghost use Rattle.toml.specs.Data.{no_members};
ghost use Rattle.toml.specs.View.{view, table_view};
ghost use Rattle.aps_model.specs.Valid.{IsThreadRow, joinable};
ghost use Rattle.aps_scenario.specs.PrintedTable.{array_of_each};
ghost use Rattle.aps_scenario.specs.PrintedThreads.{channel_table, thread_table};

use crate::key::Key;
use crate::printing::operations::program_value;
use crate::printing::table::{put, put_number, put_text, put_truth};
use crate::printing::words::{policy_word, text_of};
use aps_model::{Name, NoMemory, Scenario, ThreadRow};
use std::alloc::Global;
use toml::{Table, Value};

fn channel_value(alloc: Global, name: &Name) -> Result<Value, NoMemory>
    ensures { IfOk result (λ value. view value ≡ channel_table name.now) }
{
    let mut table = Table::new(alloc);
    put_text(alloc, &mut table, Key::Name, text_of(name))?;
    Ok(Value::Table(table))
}

/// The channels as an array of tables.
pub fn channels_value(alloc: Global, channels: &[Name]) -> Result<Value, NoMemory>
    ensures { IfOk result (λ value. view value ≡ array_of_each channel_table channels.now) }
{
    let mut values = Vec::new(alloc);
    for name in channels {
        values.push(channel_value(alloc, name)?)?;
    }
    Ok(Value::Array(values))
}

/// Puts the keys of a thread into an empty table.
fn put_thread(
    alloc: Global,
    table: &mut Table,
    scenario: &Scenario,
    row: &ThreadRow,
) -> Result<(), NoMemory>
    requires row { IsThreadRow (length scenario.now.partitions) (length scenario.now.channels) (joinable scenario.now) row.now }
    requires empty { table_view table.old ≡ no_members }
    ensures { OnOk result (values.table (table_view table.new) ≡ thread_table scenario.now.partitions scenario.now.channels row.now) }
{
    let partitions = scenario.partitions();
    let partition = text_of(&partitions[row.partition.index()].name);
    put_text(alloc, table, Key::Name, text_of(&row.name))?;
    put_text(alloc, table, Key::Partition, partition)?;
    put_number(alloc, table, Key::Priority, u64::from(row.priority))?;
    put_text(alloc, table, Key::Policy, policy_word(row.policy))?;
    put_truth(alloc, table, Key::Critical, row.critical)?;
    let program = program_value(alloc, scenario.channels(), row.program.ops())?;
    put(alloc, table, Key::Program, program)
}

fn thread_value(alloc: Global, scenario: &Scenario, row: &ThreadRow) -> Result<Value, NoMemory>
    requires { IsThreadRow (length scenario.now.partitions) (length scenario.now.channels) (joinable scenario.now) row.now }
    ensures { IfOk result (λ value. view value ≡ thread_table scenario.now.partitions scenario.now.channels row.now) }
{
    let mut table = Table::new(alloc);
    put_thread(alloc, &mut table, scenario, row)?;
    Ok(Value::Table(table))
}

/// The threads as an array of tables.
pub fn threads_value(alloc: Global, scenario: &Scenario) -> Result<Value, NoMemory>
    ensures { IfOk result (λ value. view value
        ≡ array_of_each (thread_table scenario.now.partitions scenario.now.channels) scenario.now.threads) }
{
    let threads = scenario.threads();
    let mut values = Vec::new(alloc);
    for row in threads {
        values.push(thread_value(alloc, scenario, row)?)?;
    }
    Ok(Value::Array(values))
}
