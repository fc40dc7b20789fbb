//! Where an event stands, and when.
ghost use Rattle.std.specs.Prelude.{◌≡◌, ◌++◌, string_bytes, OnOk};
ghost use Rattle.view_trace_events.specs.Place as spec;

use crate::tracks::Track;
use crate::words::add_us;
use aps_model::{Nanos, NoMemory};
use std::fmt::Write;

/// On which track and when an event stands.
pub fn add_place(out: &mut String, track: Track, moment: Nanos) -> Result<(), NoMemory>
    ensures { OnOk result (string_bytes out.new ≡ string_bytes out.old ++ spec.track_place_text track moment) }
{
    add_track(out, track)?;
    out.push_str(",\"ts\":")?;
    add_us(out, moment)
}

/// On which track an event stands.
pub fn add_track(out: &mut String, track: Track) -> Result<(), NoMemory>
    ensures { OnOk result (string_bytes out.new ≡ string_bytes out.old ++ spec.track_text track) }
{
    let Track { process, thread } = track;
    write!(out, ",\"pid\":{process},\"tid\":{thread}")
}
