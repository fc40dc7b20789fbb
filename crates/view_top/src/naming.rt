//! The thread of a name.
ghost use Rattle.std.specs.Prelude.{◌≡◌, ◌<◌, ◌≤◌, length, IfSome};
ghost use Rattle.std.specs.List.{position};
ghost use Rattle.std.specs.Str.{bytes_eq};
ghost use Rattle.aps_model.specs.Limits.{most_threads};
ghost use Rattle.aps_model.specs.declared.scenario.ThreadRow.{ThreadRow as Row};
ghost use Rattle.view_top.specs.Naming as spec;

use aps_model::{Name, ThreadId, ThreadRow};

/// The thread that has this name, if there is a name and one of these threads has it.
pub fn thread_named(threads: &[ThreadRow], name: Option<Name>) -> Option<ThreadId>
    requires few { length threads.now ≤ most_threads }
    ensures same { result ≡ spec.thread_named threads.now name }
    ensures inside { IfSome result (λ x. x < length threads.now) }
{
    let name = name?;
    let place = place_of(threads, &name)?;
    Some(ThreadId::at(place))
}

/// The place of the thread that has this name.
fn place_of(threads: &[ThreadRow], name: &Name) -> Option<usize>
    ensures same { result ≡ position (λ (row : Row). bytes_eq row.name name.now) threads.now }
    ensures inside { IfSome result (λ x. x < length threads.now) }
{
    threads
        .iter()
        .position(|row| row.name.text() == name.text())
}
