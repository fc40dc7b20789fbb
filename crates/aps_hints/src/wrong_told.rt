//! What a person is told of refused words.
use crate::line::Line;
use crate::options::{Takes, is_command, is_report};
use crate::value::push_quoted;
use crate::wrong::{Program, Wrong, first_wrong};
use aps_model::NoMemory;
use std::alloc::Global;

/// What a person is told of words that the program refused: the first thing that is wrong with them. Nothing is told where
/// there are no words.
pub fn wrong_hint(
    alloc: Global,
    program: Program,
    words: &[String],
) -> Result<Option<Line>, NoMemory> {
    let Some(wrong) = first_wrong(program, words) else {
        return Ok(None);
    };
    let command = first_of(words);
    let mut line = Line::new(alloc);
    push_wrong(alloc, &mut line, program, command, &wrong)?;
    Ok(Some(line))
}

/// The first word; an empty text where there is none.
fn first_of(words: &[String]) -> &str {
    match words {
        [word, ..] => word.as_str(),
        [] => "",
    }
}

impl Program {
    fn name(self) -> &'static str {
        match self {
            Program::Simulator => "apsim",
            Program::Viewer => "apsview",
        }
    }

    /// What the first word is to be.
    fn first(self) -> &'static str {
        match self {
            Program::Simulator => " is no command of apsim",
            Program::Viewer => " is no report of apsview",
        }
    }

    /// A command or a report that reads an input.
    fn example(self) -> &'static str {
        match self {
            Program::Simulator => "solo",
            Program::Viewer => "shares",
        }
    }

    /// What the word is to the other program, if it is something.
    fn of_other(self, word: &str) -> Option<&'static str> {
        match self {
            Program::Simulator if is_report(word) => Some(" is a report of apsview, not of apsim"),
            Program::Viewer if is_command(word) => Some(" is a command of apsim, not of apsview"),
            _ => None,
        }
    }
}

fn push_wrong(
    alloc: Global,
    line: &mut Line,
    program: Program,
    command: &str,
    wrong: &Wrong<'_>,
) -> Result<(), NoMemory> {
    match wrong {
        Wrong::NoCommand { word } => push_no_command(line, program, word),
        Wrong::NoOption { word } => push_no_option(line, program, command, word),
        Wrong::Twice { option } => {
            push_option(line, option)?;
            line.push_text(b" is given twice")
        }
        Wrong::NoValue { option, takes } => {
            push_option(line, option)?;
            line.push_text(b" has no value; it takes ")?;
            push_takes(alloc, line, *takes)
        }
        Wrong::BadValue {
            value,
            option,
            takes,
        } => push_bad_value(alloc, line, value, option, *takes),
        Wrong::Missing { option } => {
            push_option(line, option)?;
            line.push_text(b" is missing")
        }
        Wrong::NotBelow => line.push_text(b"--from is not below --to"),
    }
}

fn push_option(line: &mut Line, option: &str) -> Result<(), NoMemory> {
    line.push_text(b"--")?;
    line.push_text(option.as_bytes())
}

fn push_no_command(line: &mut Line, program: Program, word: &str) -> Result<(), NoMemory> {
    push_quoted(line, word.as_bytes())?;
    if let Some(told) = program.of_other(word) {
        return line.push_text(told.as_bytes());
    }
    line.push_text(program.first().as_bytes())?;
    push_file(line, program, program.example(), word)
}

fn push_no_option(
    line: &mut Line,
    program: Program,
    command: &str,
    word: &str,
) -> Result<(), NoMemory> {
    push_quoted(line, word.as_bytes())?;
    line.push_text(b" is no option of ")?;
    line.push_text(program.name().as_bytes())?;
    line.push_text(b" ")?;
    line.push_text(command.as_bytes())?;
    match command {
        "gen" => Ok(()),
        reading => push_file(line, program, reading, word),
    }
}

/// Writes how the program is given a file, where the word looks like the name of one.
fn push_file(line: &mut Line, program: Program, command: &str, word: &str) -> Result<(), NoMemory> {
    if !is_like_a_file(word) {
        return Ok(());
    }
    line.push_text(b"; a file goes behind <: ")?;
    line.push_text(program.name().as_bytes())?;
    line.push_text(b" ")?;
    line.push_text(command.as_bytes())?;
    line.push_text(b" < ")?;
    line.push_text(word.as_bytes())
}

fn is_like_a_file(word: &str) -> bool {
    !word.starts_with("-") && (word.contains(".") || word.contains("/"))
}

fn push_bad_value(
    alloc: Global,
    line: &mut Line,
    value: &str,
    option: &str,
    takes: Takes,
) -> Result<(), NoMemory> {
    push_quoted(line, value.as_bytes())?;
    match takes {
        Takes::Report if is_report(value) => {
            line.push_text(b" is a report of apsview, not of apsim")
        }
        _ => {
            line.push_text(b" is no value of ")?;
            push_option(line, option)?;
            line.push_text(b"; it takes ")?;
            push_takes(alloc, line, takes)
        }
    }
}

fn push_takes(alloc: Global, line: &mut Line, takes: Takes) -> Result<(), NoMemory> {
    match takes {
        Takes::Number { least, most } => {
            let range = format!(in alloc; "a number from {least} to {most}")?;
            line.push_text(range.as_bytes())
        }
        Takes::Report => line.push_text(b"summary, windows or journal"),
        Takes::Order => line.push_text(b"free or fixed"),
        Takes::Thread => line.push_text(b"the name of a thread, behind = where it begins with -"),
    }
}
