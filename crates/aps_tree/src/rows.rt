//! The rows of a tree, found by name.
ghost use Rattle.std.specs.Prelude.{◌≡◌, ◌<◌, ◌++◌, [], ◌∷◌, length, slice_set, IfOk, IfSome, None};
ghost use Rattle.aps_model.specs.Limits.{most_partitions};
ghost use Rattle.aps_model.specs.Partition.{partition_named, row_or_none};

use crate::key::Key;
use aps_model::{Name, NoMemory, PartitionId, PartitionRow};
use indexmap::IndexMap;
use std::alloc::Global;
use std::marker::Model;

/// Up to 32 rows with distinct names, in order of their ids and found by name. The rows lie together, each with its
/// name, which is its key too.
#[derive(Drop)]
pub struct Rows {
    by_name: IndexMap<Key, PartitionRow>,
}

impl Model for Rows {
    ghost use Rattle.std.specs.Prelude.{List};
    ghost use Rattle.indexmap.specs.IndexMap.{keys, values, spare};
    ghost use Rattle.aps_model.specs.declared.partition.PartitionRow.{PartitionRow};
    ghost use Rattle.aps_tree.specs.Named.{AreByName};

    ghost Value = { List PartitionRow };

    ghost view = { λ r. values r.by_name };

    ghost invariant = { λ r. AreByName (keys r.by_name) (values r.by_name) (spare r.by_name) };
}

impl Rows {
    /// No rows, in room for 32.
    pub fn new(alloc: Global) -> Result<Rows, NoMemory>
        ensures { IfOk result (λ rows. rows ≡ []) }
    {
        let by_name = IndexMap::with_capacity(alloc, 32)?;
        Ok(Rows { by_name })
    }

    /// The rows, in order of their ids.
    pub fn as_slice(&self) -> &[PartitionRow]
        ensures { result.now ≡ self.now }
    {
        self.by_name.values().as_slice()
    }

    /// The row of a partition that exists.
    pub fn row_of(&self, p: PartitionId) -> PartitionRow
        requires { p < length self.now }
        ensures { result ≡ row_or_none self.now p }
    {
        self.as_slice()[p.index()]
    }

    /// The place of the row with this name, if there is one.
    pub fn place_of(&self, name: Name) -> Option<usize>
        ensures same { result ≡ partition_named self.now name }
        ensures within { IfSome result (λ p. p < length self.now) }
    {
        self.by_name.get_index_of(&Key::new(name))
    }

    /// Appends a row whose name is free.
    pub fn push(&mut self, row: PartitionRow)
        requires free { partition_named self.old row.name ≡ None }
        requires room { length self.old < most_partitions }
        ensures { self.new ≡ self.old ++ row ∷ [] }
    {
        let _ = self.by_name.insert(Key::new(row.name), row);
    }

    /// Replaces a row by one of the same name.
    pub fn set(&mut self, p: PartitionId, row: PartitionRow)
        requires place { p < length self.old }
        requires name { row.name ≡ (row_or_none self.old p).name }
        ensures { self.new ≡ slice_set self.old p row }
    {
        self.by_name[p.index()] = row;
    }
}
