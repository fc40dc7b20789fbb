//! The lines of a thread.
ghost use Rattle.std.specs.Prelude.{◌≡◌, ◌<◌, ◌++◌, string_bytes, OnOk, Some};
ghost use Rattle.std.specs.List.{flat_map, range_with_len};
ghost use Rattle.view_explain.specs.declared.because.Because.TheVariants.{Running, WaitsForReply};
ghost use Rattle.view_explain.specs.Text as spec;

use crate::above::Above;
use crate::because::Because;
use crate::deciding::Test;
use crate::scene::Scene;
use crate::words::{state_word, test_word, yes_or_no};
use aps_model::{
    ChannelId, CpuId, Facts, Merit, Nanos, NoMemory, PartitionId, Pick, State, ThreadId,
};
use std::alloc::Global;
use std::fmt::Write;
use view_lives::Segment;

/// The thread's number and name, what it does, and since when (ns).
pub fn add_head(
    out: &mut String,
    scene: &Scene,
    x: ThreadId,
    state: &State,
    since: Nanos,
) -> Result<(), NoMemory>
    ensures { OnOk result (string_bytes out.new ≡ string_bytes out.old ++ spec.head_by scene.now state.now since x) }
{
    let name = scene.thread_name(x);
    let x = x.index();
    let state = state_word(state);
    write!(out, "thread {x} {name} state {state} since {since}\n")
}

/// Since when (ns) a thread with this life is in this state after the last entry: since its last segment begins, or since that
/// entry's end where the segment is of something else.
pub fn since_last(scene: &Scene, life: &[Segment], state: &State) -> Nanos
    ensures { result ≡ spec.since_last scene.now life.now state.now }
{
    match life.last() {
        Some(segment) if scene.does(state, &segment.doing) => segment.from,
        _ => scene.last(),
    }
}

/// Since when (ns) a thread with this life does what it does at a moment; where the life ends before, since the last of these
/// moments (ns).
pub fn since(life: &[Segment], last: Nanos, at: Nanos) -> Nanos
    ensures { result ≡ spec.since life.now last at }
{
    for i in 0..life.len() {
        if life[i].from <= at && at < life[i].to {
            return life[i].from;
        }
    }
    last
}

/// These values, behind a word.
pub fn add_values(
    out: &mut String,
    scene: &Scene,
    word: &str,
    facts: &Facts,
) -> Result<(), NoMemory>
    ensures { OnOk result (string_bytes out.new ≡ string_bytes out.old ++ spec.facts_line scene.now word.now facts.now) }
{
    let p = facts.partition.index();
    let name = scene.row_name(facts.partition);
    let priority = facts.priority;
    let critical = yes_or_no(facts.critical);
    write!(
        out,
        "{word} partition {p} {name} priority {priority} critical {critical}\n"
    )
}

/// How the partition stands, with its times in ns.
pub fn add_part(out: &mut String, scene: &Scene, p: PartitionId) -> Result<(), NoMemory>
    ensures { OnOk result (string_bytes out.new ≡ string_bytes out.old ++ spec.part_line scene.now p) }
{
    let part = scene.part(p);
    add_used(out, scene, p)?;
    add_allowed(out, scene.allowance(p), part.funded)?;
    add_critical(out, scene.critical_used(p), scene.critical_budget(p))?;
    add_limits(out, part.standing, part.shut)
}

fn add_used(out: &mut String, scene: &Scene, p: PartitionId) -> Result<(), NoMemory>
    ensures { OnOk result (string_bytes out.new ≡ string_bytes out.old ++ spec.used_words scene.now p) }
{
    let used = scene.used(p);
    let name = scene.row_name(p);
    let p = p.index();
    write!(out, "partition {p} {name} used {used} ")
}

fn add_allowed(out: &mut String, allowance: Nanos, in_budget: bool) -> Result<(), NoMemory>
    ensures { OnOk result (string_bytes out.new ≡ string_bytes out.old ++ spec.allowed_words allowance in_budget) }
{
    let in_budget = yes_or_no(in_budget);
    write!(out, "allowance {allowance} in_budget {in_budget} ")
}

fn add_critical(out: &mut String, used: Nanos, budget: Nanos) -> Result<(), NoMemory>
    ensures { OnOk result (string_bytes out.new ≡ string_bytes out.old ++ spec.critical_words used budget) }
{
    write!(out, "critical_used {used} critical_budget {budget} ")
}

fn add_limits(out: &mut String, standing: bool, shut: bool) -> Result<(), NoMemory>
    ensures { OnOk result (string_bytes out.new ≡ string_bytes out.old ++ spec.limits_line standing shut) }
{
    let standing = yes_or_no(standing);
    let shut = yes_or_no(shut);
    write!(out, "standing {standing} shut {shut}\n")
}

/// Where the partition is out of budget, the boundary (ns) at which it is in budget again if nothing more is billed.
pub fn add_again(out: &mut String, scene: &Scene, p: PartitionId) -> Result<(), NoMemory>
    ensures { OnOk result (string_bytes out.new ≡ string_bytes out.old ++ spec.again_line scene.now p) }
{
    let part = scene.part(p);
    if part.funded {
        return Ok(());
    }
    add_boundary(out, scene.again(p))
}

fn add_boundary(out: &mut String, boundary: Option<Nanos>) -> Result<(), NoMemory>
    ensures { OnOk result (string_bytes out.new ≡ string_bytes out.old ++ spec.boundary_line boundary) }
{
    match boundary {
        Some(moment) => write!(out, "again {moment}\n"),
        None => write!(out, "again -\n"),
    }
}

/// The class of a thread in this state, where it is ready or runs, and what else is ready or runs where it is ready.
pub fn add_state(
    alloc: Global,
    out: &mut String,
    scene: &Scene,
    x: ThreadId,
    state: &State,
) -> Result<(), NoMemory>
    ensures { OnOk result (string_bytes out.new ≡ string_bytes out.old ++ spec.class_and_rivals scene.now x state.now) }
{
    match state {
        State::Ready => {
            add_class(out, scene.merit(x).class)?;
            add_rivals(alloc, out, scene, x)
        }
        State::Running(_) => add_class(out, scene.merit(x).class),
        _ => Ok(()),
    }
}

fn add_class(out: &mut String, class: u8) -> Result<(), NoMemory>
    ensures { OnOk result (string_bytes out.new ≡ string_bytes out.old ++ spec.class_line class) }
{
    write!(out, "class {class}\n")
}

/// What the processors do, and which candidates are greater.
fn add_rivals(alloc: Global, out: &mut String, scene: &Scene, x: ThreadId) -> Result<(), NoMemory>
    ensures { OnOk result (string_bytes out.new ≡ string_bytes out.old ++ spec.rivals_text scene.now x) }
{
    let above = scene.above(alloc, x)?;
    add_cpus(out, scene, x)?;
    add_all_above(out, scene, above.as_slice())
}

fn add_cpus(out: &mut String, scene: &Scene, x: ThreadId) -> Result<(), NoMemory>
    ensures { OnOk result (string_bytes out.new
        ≡ string_bytes out.old ++ flat_map (spec.cpu_line scene.now x) (range_with_len 0 scene.now.scenario.shape.cpus)) }
{
    for c in 0..scene.cpu_count() {
        add_cpu(out, scene, x, CpuId::at(c))?;
    }
    Ok(())
}

fn add_cpu(out: &mut String, scene: &Scene, x: ThreadId, c: CpuId) -> Result<(), NoMemory>
    requires { c < scene.now.scenario.shape.cpus }
    ensures { OnOk result (string_bytes out.new ≡ string_bytes out.old ++ spec.cpu_line scene.now x c) }
{
    let next = scene.due(c);
    let cpu = scene.cpu(c);
    match &cpu.running {
        None => add_idle(out, c, next),
        Some(pick) => add_pick(out, scene, c, next, &scene.ahead_on(x, c), pick),
    }
}

fn add_idle(out: &mut String, c: CpuId, next: Nanos) -> Result<(), NoMemory>
    ensures { OnOk result (string_bytes out.new ≡ string_bytes out.old ++ spec.idle_line c next) }
{
    let c = c.index();
    write!(out, "cpu {c} idle next {next}\n")
}

/// What a processor runs that keeps this pick and steps next at this moment, and whether that stands ahead.
fn add_pick(
    out: &mut String,
    scene: &Scene,
    c: CpuId,
    next: Nanos,
    standing: &Option<Test>,
    pick: &Pick,
) -> Result<(), NoMemory>
    ensures { OnOk result (string_bytes out.new ≡ string_bytes out.old ++ spec.cpu_line_by scene.now c next standing.now (Some pick.now)) }
{
    add_running(out, scene, c, pick)?;
    let merit = scene.merit(pick.thread);
    add_merit(out, &merit, next)?;
    add_standing(out, standing)
}

fn add_running(out: &mut String, scene: &Scene, c: CpuId, pick: &Pick) -> Result<(), NoMemory>
    ensures { OnOk result (string_bytes out.new ≡ string_bytes out.old ++ spec.running_words scene.now c pick.now) }
{
    let c = c.index();
    let thread = scene.thread_name(pick.thread);
    let x = pick.thread.index();
    let row = scene.row_name(pick.partition);
    let p = pick.partition.index();
    write!(out, "cpu {c} runs {x} {thread} billed {p} {row} ")
}

fn add_merit(out: &mut String, merit: &Merit, next: Nanos) -> Result<(), NoMemory>
    ensures { OnOk result (string_bytes out.new ≡ string_bytes out.old ++ spec.merit_words merit.now next) }
{
    let class = merit.class;
    let priority = merit.priority;
    write!(out, "class {class} priority {priority} next {next} ")
}

fn add_standing(out: &mut String, standing: &Option<Test>) -> Result<(), NoMemory>
    ensures { OnOk result (string_bytes out.new ≡ string_bytes out.old ++ spec.standing_words standing.now) }
{
    match standing {
        None => out.push_str("behind\n"),
        Some(test) => add_ahead(out, test),
    }
}

fn add_ahead(out: &mut String, test: &Test) -> Result<(), NoMemory>
    ensures { OnOk result (string_bytes out.new ≡ string_bytes out.old ++ spec.standing_words (Some test.now)) }
{
    let test = test_word(test);
    write!(out, "ahead {test}\n")
}

fn add_all_above(out: &mut String, scene: &Scene, above: &[Above]) -> Result<(), NoMemory>
    ensures { OnOk result (string_bytes out.new ≡ string_bytes out.old ++ flat_map (spec.above_line scene.now) above.now) }
{
    for one in above {
        add_above(out, scene, one)?;
    }
    Ok(())
}

fn add_above(out: &mut String, scene: &Scene, above: &Above) -> Result<(), NoMemory>
    ensures { OnOk result (string_bytes out.new ≡ string_bytes out.old ++ spec.above_line scene.now above.now) }
{
    let name = scene.thread_name(above.thread);
    let x = above.thread.index();
    let test = test_word(&above.test);
    write!(out, "ready {x} {name} ahead {test}\n")
}

/// Why a thread runs, or doesn't.
pub fn add_because(out: &mut String, scene: &Scene, because: &Because) -> Result<(), NoMemory>
    ensures { OnOk result (string_bytes out.new ≡ string_bytes out.old ++ spec.because_line scene.now because.now) }
{
    match because {
        Because::Running {
            cpu,
            partition,
            critical,
        } => add_because_running(out, scene, *cpu, *partition, *critical),
        Because::Shut => out.push_str("because shut\n"),
        Because::NotYet(moment) => write!(out, "because not_yet next {moment}\n"),
        Because::Outranked { running, ready } => write!(
            out,
            "because outranked by {running} running and {ready} ready\n"
        ),
        Because::Sleeping(moment) => write!(out, "because sleeping until {moment}\n"),
        Because::WaitsForReply(y) => add_server(out, scene, *y),
        Because::WaitsForReceiver(c) => add_channel(out, scene, "waits_for_receiver", *c),
        Because::WaitsForMessage(c) => add_channel(out, scene, "waits_for_message", *c),
        Because::Gone => out.push_str("because gone\n"),
    }
}

fn add_because_running(
    out: &mut String,
    scene: &Scene,
    c: CpuId,
    p: PartitionId,
    critical: bool,
) -> Result<(), NoMemory>
    ensures { OnOk result (string_bytes out.new ≡ string_bytes out.old ++ spec.because_line scene.now (Running c p critical)) }
{
    let name = scene.row_name(p);
    let c = c.index();
    let p = p.index();
    let critical = yes_or_no(critical);
    write!(
        out,
        "because running cpu {c} billed {p} {name} critical {critical}\n"
    )
}

fn add_server(out: &mut String, scene: &Scene, y: ThreadId) -> Result<(), NoMemory>
    ensures { OnOk result (string_bytes out.new ≡ string_bytes out.old ++ spec.because_line scene.now (WaitsForReply y)) }
{
    let name = scene.thread_name(y);
    let y = y.index();
    write!(out, "because waits_for_reply of {y} {name}\n")
}

/// What a thread waits for at a channel, by this word.
fn add_channel(out: &mut String, scene: &Scene, word: &str, c: ChannelId) -> Result<(), NoMemory>
    ensures { OnOk result (string_bytes out.new ≡ string_bytes out.old ++ spec.channel_line scene.now word.now c) }
{
    let name = scene.channel_name(c);
    let c = c.index();
    write!(out, "because {word} at {c} {name}\n")
}
