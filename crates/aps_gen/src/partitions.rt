//! The partitions of a generated scenario.
ghost use Rattle.std.specs.Prelude.{◌≡◌, ◌≤◌, IfOk};
ghost use Rattle.aps_gen.specs.Generated as spec;
ghost use Rattle.aps_model.specs.Limits.{most_partitions};

use crate::names::partition_name;
use aps_model::{Name, NoMemory, PartitionId, PartitionRow};
use std::alloc::Global;

fn row(name: Name, budget: u16) -> PartitionRow
    ensures { result ≡ spec.row name budget }
{
    PartitionRow {
        name,
        parent: PartitionId::at(0),
        budget,
        critical: 0,
        max: 100,
    }
}

/// The root, and equal shares for the others, of which the root has what is left.
pub fn partition_rows(alloc: Global, count: u8) -> Result<Vec<PartitionRow>, NoMemory>
    requires some { 1 ≤ count }
    requires few { count ≤ most_partitions }
    ensures { IfOk result (λ v. v.items ≡ spec.rows count) }
{
    let Ok(system) = Name::new(b"System") else {
        unreachable!()
    };
    let share = 100 / u16::from(count);
    let mut rows = Vec::new(alloc);
    rows.push(row(system, 100 - u16::from(count - 1) * share))?;
    for i in 1..count {
        let name = partition_name(alloc, i)?;
        rows.push(row(name, share))?;
    }
    Ok(rows)
}
