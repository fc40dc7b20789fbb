//! Where the path of a refusal leads.
use toml::{Table, Value};

/// What a text was read as.
#[derive(Clone, Copy, PartialEq, Eq)]
pub enum Document {
    /// A scenario, as `scenario_of` of `aps_scenario` reads it.
    Scenario,
    /// Demands, as `demands_of` reads them.
    Demands,
}

/// A kind of table.
#[derive(Clone, Copy)]
pub enum Owner {
    Top,
    Partition,
    Channel,
    Thread,
    Command,
    Demand,
}

impl Owner {
    /// The kind of the tables in the array at this key of the top table.
    fn of_array(key: &str) -> Owner {
        match key {
            "partition" => Owner::Partition,
            "channel" => Owner::Channel,
            "thread" => Owner::Thread,
            "command" => Owner::Command,
            "demand" => Owner::Demand,
            _ => Owner::Top,
        }
    }
}

/// A part of a text: a table, a key of a table, or an element of the array at that key.
#[derive(Drop)]
pub struct Spot<'a> {
    /// The kind of the table.
    pub owner: Owner,
    /// The key of the array in which the table stands, and its index there; nothing for the top table.
    pub table: Option<(&'a str, usize)>,
    /// The key, if the path names one.
    pub key: Option<&'a str>,
    /// The index in the array at that key, if the path names one.
    pub element: Option<usize>,
}

/// A key, and the index behind it, if there is one: `thread[3]`.
fn indexed(part: &str) -> (&str, Option<usize>) {
    match part.split_once('[') {
        Some((key, index)) => (key, index.trim_end_matches(']').parse::<usize>().ok()),
        None => (part, None),
    }
}

/// Where this path leads.
pub fn spot_of(path: &str) -> Spot<'_> {
    let (first, behind) = match path.split_once('.') {
        Some((first, behind)) => (first, Some(behind)),
        None => (path, None),
    };
    match (indexed(first), behind) {
        ((array, Some(index)), Some(behind)) => {
            let (key, element) = indexed(behind);
            Spot {
                owner: Owner::of_array(array),
                table: Some((array, index)),
                key: Some(key),
                element,
            }
        }
        ((array, Some(index)), None) => Spot {
            owner: Owner::of_array(array),
            table: Some((array, index)),
            key: None,
            element: None,
        },
        ((key, None), _) => Spot {
            owner: Owner::Top,
            table: None,
            key: Some(key),
            element: None,
        },
    }
}

/// The table in an array at a key, by its index there.
pub fn table_in<'a>(top: &'a Table, key: &str, index: usize) -> Option<&'a Table> {
    top.get(key)?.as_array()?.get(index)?.as_table()
}

impl Spot<'_> {
    /// The table that the path leads to, or whose key it names.
    pub fn table_of<'t>(&self, top: &'t Table) -> Option<&'t Table> {
        match self.table {
            Some((key, index)) => table_in(top, key, index),
            None => Some(top),
        }
    }

    /// The value that the path leads to.
    pub fn value_of<'t>(&self, top: &'t Table) -> Option<&'t Value> {
        let Some(key) = self.key else {
            let (array, index) = self.table?;
            return top.get(array)?.as_array()?.get(index);
        };
        let value = self.table_of(top)?.get(key)?;
        match self.element {
            Some(index) => value.as_array()?.get(index),
            None => Some(value),
        }
    }
}
