//! Where a refused part is, as a person is told it.
use crate::fault::push_position;
use crate::line::Line;
use crate::spot::{Owner, Spot};
use aps_model::{Name, NoMemory};
use std::alloc::Global;
use toml::Table;

/// The thread in whose table the part is, if it has a name, and the line and the column of this place.
pub fn place_told(
    alloc: Global,
    bytes: &[u8],
    place: usize,
    spot: &Spot<'_>,
    top: &Table,
) -> Result<Line, NoMemory> {
    let mut line = Line::new(alloc);
    if let Some(name) = thread_name(spot, top) {
        line.push_text(b"thread ")?;
        line.push_text(name.as_bytes())?;
        line.push_text(b", ")?;
    }
    push_position(alloc, &mut line, bytes, place)?;
    Ok(line)
}

/// The name of the thread in whose table the part is.
fn thread_name<'t>(spot: &Spot<'_>, top: &'t Table) -> Option<&'t str> {
    match spot.owner {
        Owner::Thread => {
            let name = spot.table_of(top)?.get("name")?.as_str()?;
            if Name::new(name.as_bytes()).is_ok() {
                Some(name)
            } else {
                None
            }
        }
        _ => None,
    }
}
