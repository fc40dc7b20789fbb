//! Why an input is refused, and the line that tells it.
ghost use Rattle.std.specs.Prelude.{◌≡◌, ◌++◌, codes, string_bytes, vec_items, IfOk, OnOk};
ghost use Rattle.aps_calls.specs.declared.refusal.InputRefusal.TheVariants.{Text, BadJournal};
ghost use Rattle.aps_calls.specs.Printing.{MakesAndPrints, output_of};
ghost use Rattle.aps_calls.specs.Refusal.{IsLineToMake, refusal_text, input_refusal_words};

use crate::printing::print;
use crate::status::Status;
use aps_io::Sink;
use aps_model::NoMemory;
use aps_scenario::{Kind, PathText};
use std::alloc::Global;
use std::fmt::Write;

/// Why an input is refused.
#[derive(Clone, Copy, PartialEq, Eq)]
pub enum InputRefusal {
    /// The text of a scenario, or of demands, is none: what is wrong with the first part that breaks a rule, and the path
    /// of that part.
    Text { kind: Kind, path: PathText },
    /// There is no line `--- journal` between a scenario and a journal.
    NoJournal,
    /// What stands behind that line is no journal: the line and the column of it at which it is bad first, both from 1.
    BadJournal { line: u32, column: u32 },
    /// The scenario has no thread of the name that the words give.
    UnknownThread,
    /// The picture would begin behind the end of the history, or at it.
    BehindEnd,
}

/// Writes the line that says why the input is refused, and gives the status for that; or there was no memory for the
/// line, and nothing was written.
pub fn print_refusal<K: Sink>(alloc: Global, refusal: &InputRefusal, sink: &mut K) -> Status
    ensures { MakesAndPrints (IsLineToMake refusal.now)
        (output_of (K.written sink.old) (K.written sink.new) (K.faults sink.old) (K.faults sink.new)
        (K.shortages sink.old) (K.shortages sink.new))
        (refusal_text refusal.now) Status.InputRefused result }
{
    match refusal {
        InputRefusal::Text { kind, path } => match text_line(alloc, kind, path) {
            Ok(line) => print(sink, &line, Status::InputRefused),
            Err(_) => Status::NoMemory,
        },
        InputRefusal::NoJournal => {
            print(
                sink,
                b"aps: scenario refused: no-journal -\n",
                Status::InputRefused,
            )
        }
        InputRefusal::BadJournal { line, column } => match journal_line(alloc, *line, *column) {
            Ok(line) => print(sink, line.as_bytes(), Status::InputRefused),
            Err(_) => Status::NoMemory,
        },
        InputRefusal::UnknownThread => {
            print(
                sink,
                b"aps: scenario refused: unknown-name --thread\n",
                Status::InputRefused,
            )
        }
        InputRefusal::BehindEnd => {
            print(
                sink,
                b"aps: scenario refused: out-of-range --from\n",
                Status::InputRefused,
            )
        }
    }
}

/// The line of a text that is no scenario or no demands.
fn text_line(alloc: Global, kind: &Kind, path: &PathText) -> Result<Vec<u8>, NoMemory>
    ensures { IfOk result (λ line. vec_items line ≡ refusal_text (Text kind.now path.now)) }
{
    let mut line = Vec::new(alloc);
    line.extend_from_slice(b"aps: scenario refused: ")?;
    line.extend_from_slice(kind.word().as_bytes())?;
    line.extend_from_slice(b" ")?;
    line.extend_from_slice(path.text())?;
    line.extend_from_slice(b"\n")?;
    Ok(line)
}

/// The line of a text that is no journal.
fn journal_line(alloc: Global, line: u32, column: u32) -> Result<String, NoMemory>
    ensures { IfOk result (λ text. string_bytes text ≡ refusal_text (BadJournal line column)) }
{
    let mut text = String::new(alloc);
    text.push_str("aps: scenario refused: ")?;
    add_place(&mut text, line, column)?;
    Ok(text)
}

fn add_place(text: &mut String, line: u32, column: u32) -> Result<(), NoMemory>
    ensures { OnOk result (string_bytes text.new ≡ string_bytes text.old ++ input_refusal_words (BadJournal line column)) }
{
    write!(text, "bad-journal {line}:{column}\n")
}
