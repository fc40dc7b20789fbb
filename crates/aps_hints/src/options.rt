//! The options of the commands of `apsim` and of the reports of `apsview`: for a hint on the first word that is wrong.
use aps_model::limits::{LAST_CPU, LAST_MOMENT, LAST_PARTITION, MOST_ENTRIES, MOST_TICKS};

/// What an option takes.
#[derive(Clone, Copy)]
pub enum Takes {
    Number { least: u64, most: u64 },
    /// `summary`, `windows` or `journal`.
    Report,
    /// `free` or `fixed`.
    Order,
    /// The name of a thread.
    Thread,
}

const LIMIT: Takes = Takes::Number {
    least: 1,
    most: MOST_ENTRIES,
};

const TICK: Takes = Takes::Number {
    least: 0,
    most: MOST_TICKS,
};

/// Whether `apsim` has a command of this word.
pub fn is_command(word: &str) -> bool {
    match word {
        "solo" | "run" | "check" | "admit" | "upgrade" | "gen" => true,
        _ => false,
    }
}

/// Whether `apsview` has a report of this word.
pub fn is_report(word: &str) -> bool {
    match word {
        "shares" | "latency" | "cycles" | "vcd" | "gtkw" | "trace" | "explain" => true,
        other => has_ticks(other),
    }
}

/// Whether the report of this word takes `--from` and `--to`.
pub fn has_ticks(word: &str) -> bool {
    match word {
        "csv" | "timeline" | "threads" | "usage" => true,
        _ => false,
    }
}

/// What the option of a command of `apsim` takes, if the command has it.
pub fn command_takes(command: &str, option: &str) -> Option<Takes> {
    match (command, option) {
        ("solo" | "run" | "check", "limit") => Some(LIMIT),
        ("solo" | "run", "report") => Some(Takes::Report),
        ("run" | "check", "order") => Some(Takes::Order),
        ("gen", number) => gen_takes(number),
        _ => None,
    }
}

fn gen_takes(option: &str) -> Option<Takes> {
    match option {
        "seed" => Some(Takes::Number {
            least: 0,
            most: u64::MAX,
        }),
        "cpus" => Some(Takes::Number {
            least: 1,
            most: LAST_CPU + 1,
        }),
        "partitions" => Some(Takes::Number {
            least: 1,
            most: LAST_PARTITION + 1,
        }),
        "ticks" => Some(Takes::Number {
            least: 1,
            most: MOST_TICKS,
        }),
        _ => None,
    }
}

/// What the option of a report of `apsview` takes, if the report has it.
pub fn report_takes(report: &str, option: &str) -> Option<Takes> {
    match (report, option) {
        (_, "limit") => Some(LIMIT),
        ("explain", "thread") => Some(Takes::Thread),
        ("explain", "at") => Some(Takes::Number {
            least: 0,
            most: LAST_MOMENT,
        }),
        (ticked, "from" | "to") if has_ticks(ticked) => Some(TICK),
        _ => None,
    }
}

/// The options that the command of `apsim`, or the report of `apsview`, can't do without.
pub fn required(command: &str) -> &'static [&'static str] {
    match command {
        "gen" => &["seed", "cpus", "partitions", "ticks"],
        "explain" => &["thread", "at"],
        _ => &[],
    }
}

impl Takes {
    /// Whether an option that takes this takes this value.
    pub fn fits(self, value: &str) -> bool {
        match self {
            Takes::Number { least, most } => is_number(value, least, most),
            Takes::Report => match value {
                "summary" | "windows" | "journal" => true,
                _ => false,
            },
            Takes::Order => value == "free" || value == "fixed",
            Takes::Thread => true,
        }
    }
}

/// Whether the text is a number in this range, in digits that don't begin with a zero, but for 0 itself.
fn is_number(text: &str, least: u64, most: u64) -> bool {
    match text.as_bytes() {
        [b'0'] => least == 0,
        [b'1'..=b'9', rest @ ..] => {
            rest.iter().all(|byte| byte.is_ascii_digit()) && is_between(text, least, most)
        }
        _ => false,
    }
}

fn is_between(digits: &str, least: u64, most: u64) -> bool {
    match digits.parse::<u64>() {
        Ok(number) => least <= number && number <= most,
        Err(_) => false,
    }
}
