//! The names of partitions and threads.
ghost use Rattle.std.specs.Prelude.{◌≡◌, ◌≤◌, IfOk, codes, string_bytes};
ghost use Rattle.aps_model.specs.Limits.{last_cpu, last_partition};
ghost use Rattle.aps_model.specs.Name.{IsName};
ghost use Rattle.aps_gen.specs.Names as spec;

use aps_model::{Name, NoMemory};
use std::alloc::Global;

fn name_of(text: &String) -> Name
    requires { IsName (string_bytes text.now) }
    ensures { result ≡ string_bytes text.now }
{
    match Name::new(text.as_bytes()) {
        Ok(name) => name,
        Err(_) => unreachable!(),
    }
}

#[tactic(auto, using(crate::proofs::NameFacts::is_partition_name))]
pub fn partition_name(alloc: Global, i: u8) -> Result<Name, NoMemory>
    requires { i ≤ last_partition }
    ensures { IfOk result (λ name. name ≡ spec.partition_name i) }
{
    let text = format!(in alloc; "P{i}")?;
    Ok(name_of(&text))
}

#[tactic(auto, using(crate::proofs::NameFacts::is_endless_name))]
pub fn endless_name(alloc: Global, i: u8, j: u8) -> Result<Name, NoMemory>
    requires partition { i ≤ last_partition }
    requires thread { j ≤ last_cpu }
    ensures { IfOk result (λ name. name ≡ spec.endless_name i j) }
{
    let text = format!(in alloc; "t{i}_{j}")?;
    Ok(name_of(&text))
}

#[tactic(auto, using(crate::proofs::NameFacts::is_worker_name))]
pub fn worker_name(alloc: Global, i: u8) -> Result<Name, NoMemory>
    requires { i ≤ last_partition }
    ensures { IfOk result (λ name. name ≡ spec.worker_name i) }
{
    let text = format!(in alloc; "w{i}")?;
    Ok(name_of(&text))
}

#[tactic(auto, using(crate::proofs::NameFacts::is_client_name))]
pub fn client_name(alloc: Global, i: u8) -> Result<Name, NoMemory>
    requires { i ≤ last_partition }
    ensures { IfOk result (λ name. name ≡ spec.client_name i) }
{
    let text = format!(in alloc; "cl{i}")?;
    Ok(name_of(&text))
}
