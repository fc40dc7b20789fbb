//! Tables that are printed, key by key.
ghost use Rattle.std.specs.Prelude.{◌≡◌, ◌<◌, ◌^◌, OnOk};
ghost use Rattle.toml.specs.Data.{string, boolean};
ghost use Rattle.toml.specs.View.{view, table_view};
ghost use Rattle.aps_scenario.specs.PrintedTable as spec;

use crate::key::Key;
use aps_model::NoMemory;
use std::alloc::Global;
use toml::{Table, Value};

/// Puts a value at a key.
pub fn put(alloc: Global, table: &mut Table, key: Key, value: Value) -> Result<(), NoMemory>
    ensures { OnOk result (table_view table.new ≡ spec.put key (view value) (table_view table.old)) }
{
    let name = String::from_str(alloc, key.text())?;
    table.insert(name, value)?;
    Ok(())
}

/// Puts an integer at a key.
pub fn put_number(alloc: Global, table: &mut Table, key: Key, number: u64) -> Result<(), NoMemory>
    requires { number < 2 ^ 63 }
    ensures { OnOk result (table_view table.new ≡ spec.put key (spec.number_data number) (table_view table.old)) }
{
    put(alloc, table, key, Value::Integer(number as i64))
}

/// Puts a text at a key.
pub fn put_text(alloc: Global, table: &mut Table, key: Key, text: &str) -> Result<(), NoMemory>
    ensures { OnOk result (table_view table.new ≡ spec.put key (string text.now) (table_view table.old)) }
{
    let value = Value::string(alloc, text)?;
    put(alloc, table, key, value)
}

/// Puts a truth value at a key.
pub fn put_truth(alloc: Global, table: &mut Table, key: Key, truth: bool) -> Result<(), NoMemory>
    ensures { OnOk result (table_view table.new ≡ spec.put key (boolean truth) (table_view table.old)) }
{
    put(alloc, table, key, Value::Boolean(truth))
}
