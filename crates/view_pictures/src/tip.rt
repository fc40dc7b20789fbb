//! What is shown where somebody points at a piece of a thread's life.
use crate::scene::Scene;
use aps_model::{Name, NoMemory, PartitionId, Scenario, ThreadId};
use std::fmt::Write;
use view_lives::{Doing, Segment};
use view_svg::number::add_ms;
use view_texts::text_of;

/// The beginning of a group with a title: the name of the thread, what it does, and from when to when; where it runs, who is billed,
/// and whether that is critical time.
pub fn open_tip(
    out: &mut String,
    scenario: &Scenario,
    scene: &Scene,
    name: &Name,
    segment: &Segment,
) -> Result<(), NoMemory> {
    let name = text_of(name);
    write!(out, "<g><title>{name} ")?;
    add_doing(out, scenario, &segment.doing)?;
    out.push_str(", ")?;
    add_ms(out, segment.from)?;
    out.push_str(" to ")?;
    add_ms(out, segment.to)?;
    out.push_str(" ms")?;
    add_bill(out, scene, &segment.doing)?;
    out.push_str("</title>\n")
}

/// What a thread does.
fn add_doing(out: &mut String, scenario: &Scenario, doing: &Doing) -> Result<(), NoMemory> {
    match doing {
        Doing::Running { cpu, .. } => {
            let cpu = cpu.index();
            write!(out, "on cpu {cpu}")
        }
        Doing::Ready => out.push_str("ready"),
        Doing::Sleeping => out.push_str("sleeps"),
        Doing::Sending(c) => add_words(
            out,
            "waits to send at ",
            scenario.channels().get(c.index()),
        ),
        Doing::Receiving(c) => {
            add_words(
                out,
                "waits for a message at ",
                scenario.channels().get(c.index()),
            )
        }
        Doing::Replying(y) => add_words(out, "waits for the reply of ", thread_name(scenario, *y)),
        Doing::Gone => out.push_str("gone"),
    }
}

/// Words, and a name behind them, where there is one.
fn add_words(out: &mut String, words: &str, name: Option<&Name>) -> Result<(), NoMemory> {
    out.push_str(words)?;
    match name {
        Some(name) => out.push_str(text_of(name)),
        None => Ok(()),
    }
}

fn thread_name(scenario: &Scenario, x: ThreadId) -> Option<&Name> {
    match scenario.threads().get(x.index()) {
        Some(row) => Some(&row.name),
        None => None,
    }
}

/// Who is billed for a thread that runs, and whether its time is critical.
fn add_bill(out: &mut String, scene: &Scene, doing: &Doing) -> Result<(), NoMemory> {
    let Doing::Running {
        partition,
        critical,
        ..
    } = doing
    else {
        return Ok(());
    };
    add_words(out, ", billed to ", row_name(scene, *partition))?;
    if *critical {
        out.push_str(", critical")?;
    }
    Ok(())
}

fn row_name(scene: &Scene, p: PartitionId) -> Option<&Name> {
    match scene.rows.get(p.index()) {
        Some(row) => Some(&row.name),
        None => None,
    }
}
