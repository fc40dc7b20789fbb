//! Keys of a command that don't belong there because its `do` names no command.
ghost use Rattle.std.specs.Prelude.{◌≡◌, Err, IfOk, IfSome};
ghost use Rattle.toml.specs.Data.{get_member};
ghost use Rattle.toml.specs.View.{table_view, view};
ghost use Rattle.aps_scenario.specs.declared.kind.Kind.TheVariants.{UnknownKey};
ghost use Rattle.aps_scenario.specs.Row.{word};
ghost use Rattle.aps_scenario.specs.Words.{command_words};
ghost use Rattle.aps_hints.specs.Blame.{IsDo, IsDoFault, IsDoPath};

use crate::spot::{Owner, Spot};
use aps_model::NoMemory;
use aps_scenario::{Kind, command_kind};
use std::alloc::Global;
use toml::{Table, Value};

/// What is wrong with the `do` of a command, where a refusal of this kind is of another key of it.
pub fn do_fault(kind: Kind, spot: &Spot<'_>, top: &Table) -> Option<Kind>
    ensures { IfSome result (λ fault. (kind ≡ UnknownKey) × IsDoFault (table_view top.now) fault) }
{
    match (kind, spot.owner) {
        (Kind::UnknownKey, Owner::Command) => fault_of(do_of(spot, top)?),
        _ => None,
    }
}

/// The value at `do` in the table to which this path leads.
fn do_of<'t>(spot: &Spot<'_>, top: &'t Table) -> Option<&'t Value>
    ensures { IfSome result (λ does. IsDo (table_view top.now) (view does.now)) }
{
    let (array, index) = spot.table?;
    value_of(top, array)?.get(index)?.get("do")
}

/// The value at a key of a table.
fn value_of<'t>(table: &'t Table, key: &str) -> Option<&'t Value>
    ensures { IfSome result (λ v. get_member key.now (table_view table.now) ≡ Some (view v.now)) }
{
    table.get(key)
}

/// What is wrong with the value of `do`, if it names no command.
fn fault_of(value: &Value) -> Option<Kind>
    ensures { IfSome result (λ fault. word command_words (view value.now) ≡ Err fault) }
{
    match command_kind(value) {
        Ok(_) => None,
        Err(fault) => Some(fault),
    }
}

/// The path of the `do` of the command to which this path leads.
pub fn do_path(alloc: Global, path: &[u8]) -> Result<Vec<u8>, NoMemory>
    ensures { IfOk result (λ told. IsDoPath path.now told.items) }
{
    let before = path.iter().take_while(|byte| **byte != b'.').count();
    let mut told = Vec::new(alloc);
    told.extend_from_slice(&path[..before.min(path.len())])?;
    told.extend_from_slice(b".do")?;
    Ok(told)
}
