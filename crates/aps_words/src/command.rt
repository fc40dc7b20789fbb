//! The command that a list of words is.
ghost use Rattle.std.specs.Prelude.{◌≡◌, ◌≤◌, [], ◌∷◌, drop, map, string_bytes, true, IfOk, IfSome};
ghost use Rattle.clap.specs.Words.{first_value, found_of};
ghost use Rattle.aps_words.specs.Command as spec;
ghost use Rattle.aps_words.specs.Plain.{is_plain};

use crate::options::{check_options, gen_options, matches_in, run_options, solo_options};
use crate::plain::is_plain;
use crate::values::{limit_of, order_of, report_of, required_in};
use aps_model::Order;
use clap::ArgMatches;
use std::alloc::{AllocError, Global};

/// What is written of a run.
#[derive(Clone, Copy, PartialEq, Eq)]
pub enum Report {
    Summary,
    Windows,
    Journal,
}

/// What the program is asked for.
#[derive(Clone, Copy, PartialEq, Eq)]
pub enum Command {
    /// Runs a scenario in fixed order on the calling thread, up to `limit` entries, 1 to 4,000,000.
    Solo {
        report: Report,
        limit: u32,
    },
    /// Runs a scenario in this order, with a thread for each processor, up to `limit` entries, 1 to
    /// 4,000,000.
    Run {
        order: Order,
        report: Report,
        limit: u32,
    },
    /// Writes the scenario that this seed, any number, gives for 1 to 16 processors, 1 to 32
    /// partitions, `System` counted, and 1 to 1,000,000 ticks.
    Gen {
        seed: u64,
        cpus: u8,
        partitions: u8,
        ticks: u32,
    },
    /// Writes a scenario with its budgets in parts per thousand.
    Upgrade,
    /// Judges a journal of a scenario: whether its processors took their turns in this order, up to `limit` entries, 1 to
    /// 4,000,000.
    Check {
        order: Order,
        limit: u32,
    },
    /// Writes the least budgets that meet the demands that are read.
    Admit,
}

/// Why no command was read.
#[derive(Clone, Copy, Debug, PartialEq, Eq)]
pub enum WordsRefusal {
    /// The words are no command.
    Words,
    /// There was no memory, which tells nothing of the words.
    NoMemory,
}

impl From<AllocError> for WordsRefusal {
    ghost use Rattle.aps_words.specs.declared.command.WordsRefusal.TheVariants.{NoMemory};

    ghost from_gives = { λ _ refusal. refusal ≡ NoMemory };

    fn from(_lack: AllocError) -> WordsRefusal {
        WordsRefusal::NoMemory
    }
}

/// The command that these words are (docs/FORMATS.md, "Command line"): a command word, and then its
/// options in any order, each at most once, as `--name value` or `--name=value`. Numbers have the
/// ranges that `Command` names. Without its option the report is the summary, the limit 1,000,000
/// entries, and the order the free one; `gen` needs each of its options, `upgrade` and `admit` have none.
///
/// All other words are refused: another command word or none, `--`, an option that the command
/// doesn't have, an option twice or without a value, a value that is none of the option's, any
/// further word, and words that ask for help or for the version. `NoMemory` comes where memory runs
/// out, and tells nothing of the words.
pub fn command_of(alloc: Global, words: &[String]) -> Result<Command, WordsRefusal>
    ensures same { spec.WordsMean result (spec.command (map string_bytes words.now)) }
    ensures ranges { IfOk result spec.HasRanges }
{
    let [word, options @ ..] = words else {
        return Err(WordsRefusal::Words);
    };
    if !is_plain(alloc, options)? {
        return Err(WordsRefusal::Words);
    }
    plain_command(alloc, word.as_str(), options, words)
}

/// The command that this word and these options behind it are, which are the words.
fn plain_command(
    alloc: Global,
    word: &str,
    options: &[String],
    words: &[String],
) -> Result<Command, WordsRefusal>
    requires plain { is_plain [] (drop 1 (map string_bytes words.now)) ≡ true }
    requires options { map string_bytes options.now ≡ drop 1 (map string_bytes words.now) }
    ensures same { spec.WordsMean result (spec.command (word.now ∷ drop 1 (map string_bytes words.now))) }
    ensures ranges { IfOk result spec.HasRanges }
{
    match word {
        "solo" => solo_of(alloc, words),
        "run" => run_of(alloc, words),
        "gen" => gen_of(alloc, words),
        "upgrade" => alone(Command::Upgrade, options),
        "check" => check_of(alloc, words),
        "admit" => alone(Command::Admit, options),
        _ => Err(WordsRefusal::Words),
    }
}

/// A command that has no options, by the words behind its own.
fn alone(command: Command, options: &[String]) -> Result<Command, WordsRefusal>
    requires ranges { spec.HasRanges command }
    ensures same { spec.WordsMean result (spec.alone command (map string_bytes options.now)) }
    ensures ranges { IfOk result spec.HasRanges }
{
    match options {
        [] => Ok(command),
        _ => Err(WordsRefusal::Words),
    }
}

/// `solo`, by the words behind the first.
fn solo_of(alloc: Global, words: &[String]) -> Result<Command, WordsRefusal>
    requires plain { is_plain [] (drop 1 (map string_bytes words.now)) ≡ true }
    ensures same { spec.WordsMean result (spec.with_options spec.solo_options spec.solo (drop 1 (map string_bytes words.now))) }
    ensures ranges { IfOk result spec.HasRanges }
{
    match matches_in(solo_options(alloc)?, words) {
        Ok(matches) => said(solo_from(&matches)),
        Err(refusal) => Err(refusal),
    }
}

/// `run`, by the words behind the first.
fn run_of(alloc: Global, words: &[String]) -> Result<Command, WordsRefusal>
    requires plain { is_plain [] (drop 1 (map string_bytes words.now)) ≡ true }
    ensures same { spec.WordsMean result (spec.with_options spec.run_options spec.run (drop 1 (map string_bytes words.now))) }
    ensures ranges { IfOk result spec.HasRanges }
{
    match matches_in(run_options(alloc)?, words) {
        Ok(matches) => said(run_from(&matches)),
        Err(refusal) => Err(refusal),
    }
}

/// `gen`, by the words behind the first.
fn gen_of(alloc: Global, words: &[String]) -> Result<Command, WordsRefusal>
    requires plain { is_plain [] (drop 1 (map string_bytes words.now)) ≡ true }
    ensures same { spec.WordsMean result (spec.with_options spec.gen_options spec.gen (drop 1 (map string_bytes words.now))) }
    ensures ranges { IfOk result spec.HasRanges }
{
    match matches_in(gen_options(alloc)?, words) {
        Ok(matches) => said(gen_from(&matches)),
        Err(refusal) => Err(refusal),
    }
}

/// `check`, by the words behind the first.
fn check_of(alloc: Global, words: &[String]) -> Result<Command, WordsRefusal>
    requires plain { is_plain [] (drop 1 (map string_bytes words.now)) ≡ true }
    ensures same { spec.WordsMean result (spec.with_options spec.check_options spec.check (drop 1 (map string_bytes words.now))) }
    ensures ranges { IfOk result spec.HasRanges }
{
    match matches_in(check_options(alloc)?, words) {
        Ok(matches) => said(check_from(&matches)),
        Err(refusal) => Err(refusal),
    }
}

/// The command that the options say, where they say one.
fn said(command: Option<Command>) -> Result<Command, WordsRefusal>
    requires { IfSome command spec.HasRanges }
    ensures same { spec.WordsMean result command }
    ensures ranges { IfOk result spec.HasRanges }
{
    match command {
        Some(command) => Ok(command),
        None => Err(WordsRefusal::Words),
    }
}

fn solo_from(matches: &ArgMatches<'_>) -> Option<Command>
    ensures same { result ≡ spec.solo (first_value (found_of matches.now)) }
    ensures ranges { IfSome result spec.HasRanges }
{
    let report = report_of(matches.get_str("report"))?;
    let limit = limit_of(matches.get_str("limit"))?;
    Some(Command::Solo { report, limit })
}

fn run_from(matches: &ArgMatches<'_>) -> Option<Command>
    ensures same { result ≡ spec.run (first_value (found_of matches.now)) }
    ensures ranges { IfSome result spec.HasRanges }
{
    let order = order_of(matches.get_str("order"))?;
    let report = report_of(matches.get_str("report"))?;
    let limit = limit_of(matches.get_str("limit"))?;
    Some(Command::Run {
        order,
        report,
        limit,
    })
}

fn check_from(matches: &ArgMatches<'_>) -> Option<Command>
    ensures same { result ≡ spec.check (first_value (found_of matches.now)) }
    ensures ranges { IfSome result spec.HasRanges }
{
    let order = order_of(matches.get_str("order"))?;
    let limit = limit_of(matches.get_str("limit"))?;
    Some(Command::Check { order, limit })
}

fn gen_from(matches: &ArgMatches<'_>) -> Option<Command>
    ensures same { result ≡ spec.gen (first_value (found_of matches.now)) }
    ensures ranges { IfSome result spec.HasRanges }
{
    let seed = required_in(0, u64::MAX, matches.get_str("seed"))?;
    let cpus = required_in(1, 16, matches.get_str("cpus"))?;
    let partitions = required_in(1, 32, matches.get_str("partitions"))?;
    let ticks = required_in(1, 1_000_000, matches.get_str("ticks"))?;
    Some(Command::Gen {
        seed,
        cpus: cpus as u8,
        partitions: partitions as u8,
        ticks: ticks as u32,
    })
}
