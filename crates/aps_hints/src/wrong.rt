//! The first thing that is wrong with refused words.
use crate::options::{
    Takes, command_takes, has_ticks, is_command, is_report, report_takes, required,
};

/// The program that was given the words.
#[derive(Clone, Copy, PartialEq, Eq)]
pub enum Program {
    /// `apsim`.
    Simulator,
    /// `apsview`.
    Viewer,
}

impl Program {
    /// Whether the program has a command, or a report, of this word.
    fn has(self, word: &str) -> bool {
        match self {
            Program::Simulator => is_command(word),
            Program::Viewer => is_report(word),
        }
    }

    /// What the option of this command or report takes, if it has it.
    fn takes(self, command: &str, option: &str) -> Option<Takes> {
        match self {
            Program::Simulator => command_takes(command, option),
            Program::Viewer => report_takes(command, option),
        }
    }
}

/// What is wrong.
#[derive(Clone, Copy)]
pub enum Wrong<'a> {
    /// The program has no command, or no report, of this word.
    NoCommand {
        word: &'a str,
    },
    /// The command has no such option.
    NoOption {
        word: &'a str,
    },
    /// The option is given twice.
    Twice {
        option: &'a str,
    },
    /// The option has no value.
    NoValue {
        option: &'a str,
        takes: Takes,
    },
    /// The option doesn't take this value.
    BadValue {
        value: &'a str,
        option: &'a str,
        takes: Takes,
    },
    /// The command wants this option, which isn't given.
    Missing {
        option: &'static str,
    },
    /// `--from` isn't below `--to`.
    NotBelow,
}

/// What is wrong with the words that the program refused; nothing where there are none.
pub fn first_wrong(program: Program, words: &[String]) -> Option<Wrong<'_>> {
    let [word, options @ ..] = words else {
        return None;
    };
    let command = word.as_str();
    if !program.has(command) {
        return Some(Wrong::NoCommand { word: command });
    }
    match wrong_option(program, command, options) {
        Some(wrong) => Some(wrong),
        None => wrong_together(command, options),
    }
}

/// The first option that is wrong by itself.
fn wrong_option<'a>(program: Program, command: &str, options: &'a [String]) -> Option<Wrong<'a>> {
    let mut rest = options;
    for _ in 0..options.len() {
        match behind_option(program, command, rest) {
            Ok(behind) => rest = behind,
            Err(wrong) => return Some(wrong),
        }
    }
    None
}

/// What stands behind the first option and its value, or what is wrong with that option.
fn behind_option<'a>(
    program: Program,
    command: &str,
    words: &'a [String],
) -> Result<&'a [String], Wrong<'a>> {
    let [word, behind @ ..] = words else {
        return Ok(words);
    };
    let word = word.as_str();
    let (option, value) = parted(word);
    let Some(takes) = program.takes(command, option) else {
        return Err(Wrong::NoOption { word });
    };
    if is_given(behind, option) {
        return Err(Wrong::Twice { option });
    }
    match value {
        Some(value) => judged(option, value, takes, behind),
        None => behind_value(option, takes, behind),
    }
}

/// The name of an option, and the value behind `=`, if there is one. A word that is no option has an empty name.
fn parted(word: &str) -> (&str, Option<&str>) {
    match word.strip_prefix("--") {
        Some(option) => match option.split_once('=') {
            Some((name, value)) => (name, Some(value)),
            None => (option, None),
        },
        None => ("", None),
    }
}

/// Whether the option is among these words.
fn is_given(words: &[String], option: &str) -> bool {
    for word in words {
        if parted(word.as_str()).0 == option {
            return true;
        }
    }
    false
}

/// What stands behind the value, which is the first of these words.
fn behind_value<'a>(
    option: &'a str,
    takes: Takes,
    words: &'a [String],
) -> Result<&'a [String], Wrong<'a>> {
    match words {
        [value, behind @ ..] if !is_hyphened(value.as_str()) => {
            judged(option, value.as_str(), takes, behind)
        }
        _ => Err(Wrong::NoValue { option, takes }),
    }
}

/// Whether the word begins with a hyphen and goes on, so that it is no value unless it is given behind `=`.
fn is_hyphened(word: &str) -> bool {
    word.starts_with("-") && word.len() > 1
}

/// These words, where the option takes the value.
fn judged<'a>(
    option: &'a str,
    value: &'a str,
    takes: Takes,
    behind: &'a [String],
) -> Result<&'a [String], Wrong<'a>> {
    if takes.fits(value) {
        return Ok(behind);
    }
    Err(Wrong::BadValue {
        value,
        option,
        takes,
    })
}

/// What is wrong with the options together, where none is wrong by itself.
fn wrong_together<'a>(command: &str, options: &[String]) -> Option<Wrong<'a>> {
    for option in required(command) {
        if !is_given(options, option) {
            return Some(Wrong::Missing { option });
        }
    }
    if has_ticks(command) {
        return Some(Wrong::NotBelow);
    }
    None
}

/// The value that the words give an option, if they give it one.
pub fn value_given<'a>(words: &'a [String], option: &str) -> Option<&'a str> {
    let mut rest = words;
    for _ in 0..words.len() {
        let [word, behind @ ..] = rest else {
            return None;
        };
        match parted(word.as_str()) {
            (name, Some(value)) if name == option => return Some(value),
            (name, None) if name == option => return behind.first().map(|value| value.as_str()),
            _ => rest = behind,
        }
    }
    None
}
