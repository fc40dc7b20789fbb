//! A journal judged by its text. A line that is that of the step which its processor makes isn't read: the step's own line
//! is written beside it. Where a line is another one, the text is read.
ghost use Rattle.std.specs.Prelude.{◌≡◌, ◌≤◌, IfErr, IfOk, MatchOption, drop, length};
ghost use Rattle.aps_text.specs.Refusal.{Refuses};
ghost use Rattle.aps_check.specs.Following.{FollowsLine, IsFollowed, IsNamedStep, IsOtherAt, IsTextVerdict, TellsDifference};
ghost use Rattle.aps_model.specs.Limits.{most_entries};

use crate::difference::first_difference;
use crate::judging::{boot, judge};
use crate::verdict::Verdict;
use aps_core::{Core, Turn};
use aps_model::{Entry, Order, Scenario};
use aps_text::{JournalRefusal, LineBuffer, cpu_of_line, read_journal};
use std::alloc::Global;

/// The verdict on the journal that the text is: that of [`check`](crate::check) on its entries. A text that is no journal is
/// refused as by `read_journal`, with the place where it is bad first, whatever its lines before that break. There may be
/// 4,000,000,000 bytes. `NoMemory` comes where memory runs out, and tells nothing of the text.
///
/// Memory is taken for the run, and for the entries of the text only where it breaks a rule or is no journal.
pub fn check_text(
    alloc: Global,
    scenario: &Scenario,
    order: Order,
    limit: u32,
    text: &[u8],
) -> Result<Verdict, JournalRefusal>
    requires some { 1 ≤ limit }
    requires few { limit ≤ most_entries }
    requires short { length text.now ≤ 4000000000 }
    ensures verdict { IfOk result (IsTextVerdict (record { scenario = scenario.now; order = order; limit = limit }) text.now) }
    ensures refused { IfErr result (Refuses text.now) }
{
    let mut core = boot(alloc, scenario, order, limit)?;
    let followed = follow(&mut core, text);
    let place = core.history().entries().len();
    match followed {
        Followed::Whole => Ok(Verdict::Legal {
            end: core.history().end(),
        }),
        Followed::Waits => {
            let entries = read_journal(alloc, text)?;
            Ok(judge(&mut core, behind(&entries, place)))
        }
        Followed::Differs(step) => {
            let entries = read_journal(alloc, text)?;
            Ok(differing(&entries, place - 1, step))
        }
    }
}

/// The entries behind the first ones.
fn behind(entries: &[Entry], first: usize) -> &[Entry]
    requires { first ≤ length entries.now }
    ensures { result.now ≡ drop first entries.now }
{
    &entries[first..]
}

/// Where following the lines of a text ended.
#[derive(Drop)]
enum Followed {
    /// Behind the last line.
    Whole,
    /// At a line whose processor made no step there, if it is a line.
    Waits,
    /// At a line that isn't that of this step, which its processor made there.
    Differs(Entry),
}

/// Follows the text, as long as each line is that of the step that the processor makes which it names.
fn follow(core: &mut Core, text: &[u8]) -> Followed
    ensures { IsFollowed core.old core.new text.now result }
{
    let mut buffer = LineBuffer::new();
    let mut rest = text;
    while !rest.is_empty() {
        match follow_line(core, &mut buffer, rest) {
            Ok(after) => rest = after,
            Err(stop) => return stop,
        }
    }
    Followed::Whole
}

/// The bytes behind the line, where it is that of the step.
fn follow_line<'a>(
    core: &mut Core,
    buffer: &mut LineBuffer,
    text: &'a [u8],
) -> Result<&'a [u8], Followed>
    ensures { FollowsLine core.old core.new text.now result }
{
    let Some(step) = step_named(core, text) else {
        return Err(Followed::Waits);
    };
    let line = buffer.line(&step);
    if text.starts_with(line) {
        return Ok(&text[line.len()..]);
    }
    Err(Followed::Differs(step))
}

/// The step of the processor that the text names first, if it has the turn.
fn step_named(core: &mut Core, text: &[u8]) -> Option<Entry>
    ensures { MatchOption result (core.new ≡ core.old)
        (λ e. IsNamedStep core.old core.new text.now e) }
{
    let cpu = cpu_of_line(text)?;
    if cpu.index() >= usize::from(core.history().scenario().shape().cpus) {
        return None;
    }
    match core.step(cpu) {
        Turn::Took(step) => Some(step),
        Turn::NotYet { .. } | Turn::Ended(_) => None,
    }
}

/// The verdict where the entry at this place is the first that breaks a rule, since it's another than this step of its
/// processor.
fn differing(entries: &[Entry], place: usize, made: Entry) -> Verdict
    requires { IsOtherAt entries.now place made }
    ensures { TellsDifference entries.now place made result }
{
    match first_difference(&entries[place], &made) {
        Some(rule) => Verdict::Breaks {
            entry: place as u32,
            rule,
            expected: Some(made),
        },
        None => unreachable!(),
    }
}
