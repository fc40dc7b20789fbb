//! The lines that the answers to timed commands have in a summary.
ghost use Rattle.std.specs.Prelude.{◌≡◌, ◌++◌, ◌∷◌, [], codes, decimal, string_bytes, OnOk};
ghost use Rattle.aps_model.specs.declared.command.Answer.TheVariants.{Partition, Thread, Parameters, Statistics, Refused};
ghost use Rattle.aps_model.specs.Journal.{line_of};
ghost use Rattle.aps_model.specs.Replies.{yes_text, free_text, bankruptcy_text, state_text, answer_words, reply_line};
ghost use Rattle.aps_report.specs.Lines.{row_words, partition_reply, home_words, facts_words, state_words, thread_reply};

use aps_model::{
    Answer, Bankruptcy, CtlRefusal, Facts, Free, NoMemory, PartitionRow, Reply, Shape, State,
};
use std::fmt::Write;

/// The line of a reply.
pub fn add_reply(out: &mut String, reply: &Reply) -> Result<(), NoMemory>
    ensures { OnOk result (string_bytes out.new ≡ string_bytes out.old ++ reply_line reply.now) }
{
    let command = reply.command;
    match &reply.answer {
        Answer::Created(p) => add_number(out, command, "created", p.index()),
        Answer::Modified => add_word(out, command, "modified"),
        Answer::Found(p) => add_number(out, command, "found", p.index()),
        Answer::Partition {
            id,
            row,
            used,
            critical_used,
        } => add_partition(out, command, id.index(), row, *used, *critical_used),
        Answer::Thread {
            id,
            own,
            now,
            state,
        } => add_thread(out, command, id.index(), own, now, state),
        Answer::Parameters(shape) => add_parameters(out, command, shape),
        Answer::Set => add_word(out, command, "set"),
        Answer::Statistics {
            id,
            used,
            critical_used,
        } => add_statistics(out, command, id.index(), *used, *critical_used),
        Answer::Marked => add_word(out, command, "marked"),
        Answer::Cleared => add_word(out, command, "cleared"),
        Answer::Refused(why) => add_refusal(out, command, why),
    }
}

fn add_refusal(out: &mut String, command: u16, why: &CtlRefusal) -> Result<(), NoMemory>
    ensures { OnOk result (string_bytes out.new
        ≡ string_bytes out.old ++ reply_line (record { command = command; answer = Refused why.now })) }
{
    match why {
        CtlRefusal::NoPartition => add_word(out, command, "no-partition"),
        CtlRefusal::NameTaken => add_word(out, command, "name-taken"),
        CtlRefusal::TooMany => add_word(out, command, "too-many"),
        CtlRefusal::NoParent => add_word(out, command, "no-parent"),
        CtlRefusal::OverBudget { have } => {
            add_number(out, command, "over-budget", usize::from(*have))
        }
        CtlRefusal::BadMax { partition, least } => {
            add_bad_max(out, command, partition.index(), *least)
        }
        CtlRefusal::Gone => add_word(out, command, "gone"),
    }
}

fn add_word(out: &mut String, command: u16, word: &str) -> Result<(), NoMemory>
    ensures { OnOk result (string_bytes out.new ≡ string_bytes out.old ++ line_of (codes "reply" ∷ decimal command ∷ word.now ∷ [])) }
{
    write!(out, "reply {command} {word}\n")
}

fn add_number(out: &mut String, command: u16, word: &str, number: usize) -> Result<(), NoMemory>
    ensures { OnOk result (string_bytes out.new
        ≡ string_bytes out.old ++ line_of (codes "reply" ∷ decimal command ∷ word.now ∷ decimal number ∷ [])) }
{
    write!(out, "reply {command} {word} {number}\n")
}

fn add_bad_max(out: &mut String, command: u16, partition: usize, least: u16) -> Result<(), NoMemory>
    ensures { OnOk result (string_bytes out.new
        ≡ string_bytes out.old ++ line_of (codes "reply" ∷ decimal command ∷ codes "bad-max" ∷ decimal partition ∷ decimal least ∷ [])) }
{
    write!(out, "reply {command} bad-max {partition} {least}\n")
}

fn add_partition(
    out: &mut String,
    command: u16,
    id: usize,
    row: &PartitionRow,
    used: u64,
    critical_used: u64,
) -> Result<(), NoMemory>
    ensures { OnOk result (string_bytes out.new ≡ string_bytes out.old ++ partition_reply command id row.now used critical_used) }
{
    add_row(out, command, id, row)?;
    let critical = row.critical;
    let max = row.max;
    write!(
        out,
        " critical {critical} max {max} used {used} critical_used {critical_used}\n"
    )
}

fn add_row(out: &mut String, command: u16, id: usize, row: &PartitionRow) -> Result<(), NoMemory>
    ensures { OnOk result (string_bytes out.new ≡ string_bytes out.old ++ row_words command id row.now) }
{
    let parent = row.parent.index();
    let budget = row.budget;
    write!(
        out,
        "reply {command} partition {id} parent {parent} budget {budget}"
    )
}

fn add_thread(
    out: &mut String,
    command: u16,
    id: usize,
    own: &Facts,
    now: &Facts,
    state: &State,
) -> Result<(), NoMemory>
    ensures { OnOk result (string_bytes out.new ≡ string_bytes out.old ++ thread_reply command id own.now now.now state.now) }
{
    add_home(out, command, id, own)?;
    add_facts(out, now)?;
    add_state(out, state)
}

fn add_home(out: &mut String, command: u16, id: usize, own: &Facts) -> Result<(), NoMemory>
    ensures { OnOk result (string_bytes out.new ≡ string_bytes out.old ++ home_words command id own.now) }
{
    let home = own.partition.index();
    write!(out, "reply {command} thread {id} own {home}")
}

fn add_facts(out: &mut String, now: &Facts) -> Result<(), NoMemory>
    ensures { OnOk result (string_bytes out.new ≡ string_bytes out.old ++ facts_words now.now) }
{
    let partition = now.partition.index();
    let priority = now.priority;
    let critical = yes_text(now.critical);
    write!(
        out,
        " partition {partition} priority {priority} critical {critical}"
    )
}

fn add_state(out: &mut String, state: &State) -> Result<(), NoMemory>
    ensures { OnOk result (string_bytes out.new ≡ string_bytes out.old ++ state_words state.now) }
{
    let state = state_text(state);
    write!(out, " state {state}\n")
}

fn add_parameters(out: &mut String, command: u16, shape: &Shape) -> Result<(), NoMemory>
    ensures { OnOk result (string_bytes out.new
        ≡ string_bytes out.old ++ reply_line (record { command = command; answer = Parameters shape.now })) }
{
    let window = shape.window;
    let tick = shape.tick;
    let free = free_text(&shape.free);
    let limit = yes_text(shape.limit);
    let bankruptcy = bankruptcy_text(&shape.bankruptcy);
    write!(
        out,
        "reply {command} parameters window {window} tick {tick} free {free} limit {limit} bankruptcy {bankruptcy}\n"
    )
}

fn add_statistics(
    out: &mut String,
    command: u16,
    id: usize,
    used: u64,
    critical_used: u64,
) -> Result<(), NoMemory>
    ensures { OnOk result (string_bytes out.new
        ≡ string_bytes out.old ++ reply_line (record { command = command; answer = Statistics id used critical_used })) }
{
    write!(
        out,
        "reply {command} statistics {id} used {used} critical_used {critical_used}\n"
    )
}

fn yes_text(yes_or_no: bool) -> &'static str
    ensures { result.now ≡ yes_text yes_or_no }
{
    if yes_or_no { "yes" } else { "no" }
}

fn free_text(free: &Free) -> &'static str
    ensures { result.now ≡ free_text free.now }
{
    match free {
        Free::Priority => "priority",
        Free::Ratio => "ratio",
    }
}

fn bankruptcy_text(bankruptcy: &Bankruptcy) -> &'static str
    ensures { result.now ≡ bankruptcy_text bankruptcy.now }
{
    match bankruptcy {
        Bankruptcy::Basic => "basic",
        Bankruptcy::Cancel => "cancel",
        Bankruptcy::Reboot => "reboot",
    }
}

fn state_text(state: &State) -> &'static str
    ensures { result.now ≡ state_text state.now }
{
    match state {
        State::Ready => "ready",
        State::Running(_) => "running",
        State::Sleeping(_) => "sleeping",
        State::Sending(_) => "sending",
        State::Receiving(_) => "receiving",
        State::Replying(_) => "replying",
        State::Gone => "gone",
    }
}
