//! The options of each command, as clap reads them.
ghost use Rattle.std.specs.Prelude.{◌≡◌, ◌≢◌, ◌∷◌, [], codes, false, map, string_bytes, true, Err, IfOk, option_map};
ghost use Rattle.clap.specs.Words.{app_of, fault_of, first_value, found_of, is_simple, is_simple_and_free, kind_of, matches_of, rows_of, rule_of, with_rule};
ghost use Rattle.aps_words.specs.Clap.{app_with, option_rule, plain_app};
ghost use Rattle.aps_words.specs.Command as spec;

use crate::command::WordsRefusal;
use clap::error::ErrorKind;
use clap::{Arg, ArgAction, ArgMatches, Command, Error};
use std::alloc::{AllocError, Global};

/// An option with one value, as `--name value` or `--name=value`.
pub fn option<'a>(alloc: Global, name: &'a str) -> Arg<'a>
    ensures rule { rule_of result ≡ option_rule name.now }
    ensures local { result.global ≡ false }
{
    Arg::new(alloc, name).long(name).action(ArgAction::Set)
}

/// A command without options, and without help.
fn bare<'a>(alloc: Global, name: &'a str) -> Command<'a>
    ensures { app_of result ≡ plain_app name.now }
{
    Command::new(alloc, name).disable_help_flag(true)
}

/// The command with one more option.
fn with_option<'a>(
    alloc: Global,
    command: Command<'a>,
    name: &'a str,
) -> Result<Command<'a>, AllocError>
    ensures { IfOk result (λ c. app_of c ≡ with_rule (app_of command.entry) (option_rule name.now)) }
{
    command.arg(option(alloc, name))
}

/// A command with options of these names.
pub fn command_with<'a>(
    alloc: Global,
    name: &'a str,
    options: &[&'a str],
) -> Result<Command<'a>, AllocError>
    ensures { IfOk result (λ c. app_of c ≡ app_with name.now (map (λ option. option.now) options.now)) }
{
    let mut command = bare(alloc, name);
    for option in options {
        command = with_option(alloc, command, option)?;
    }
    Ok(command)
}

/// The command of `solo`.
pub fn solo_options<'a>(alloc: Global) -> Result<Command<'a>, AllocError>
    ensures { IfOk result (λ c. app_of c ≡ app_with (codes "solo") spec.solo_options) }
{
    command_with(alloc, "solo", &["report", "limit"])
}

/// The command of `run`.
pub fn run_options<'a>(alloc: Global) -> Result<Command<'a>, AllocError>
    ensures { IfOk result (λ c. app_of c ≡ app_with (codes "run") spec.run_options) }
{
    command_with(alloc, "run", &["order", "report", "limit"])
}

/// The command of `gen`. That each option is there is tested with the values.
pub fn gen_options<'a>(alloc: Global) -> Result<Command<'a>, AllocError>
    ensures { IfOk result (λ c. app_of c ≡ app_with (codes "gen") spec.gen_options) }
{
    command_with(alloc, "gen", &["seed", "cpus", "partitions", "ticks"])
}

/// The command of `check`.
pub fn check_options<'a>(alloc: Global) -> Result<Command<'a>, AllocError>
    ensures { IfOk result (λ c. app_of c ≡ app_with (codes "check") spec.check_options) }
{
    command_with(alloc, "check", &["order", "limit"])
}

/// What clap reads in the words, whose first is the command's own: no options but the command's, each with its value. `Words`
/// comes where clap finds a fault, and `NoMemory` where memory runs out.
pub fn matches_in<'a>(
    command: Command<'a>,
    words: &'a [String],
) -> Result<ArgMatches<'a>, WordsRefusal>
    ensures taken { is_simple_and_free (app_of command.entry) ≡ true
        → IfOk result (λ m. fault_of (app_of command.entry) (map string_bytes words.entry.now) ≡ []) }
    ensures rows { is_simple (app_of command.entry) ≡ true
        → IfOk result (λ m. rows_of (found_of m) ≡ matches_of (app_of command.entry) (map string_bytes words.entry.now)) }
    ensures refused { is_simple_and_free (app_of command.entry) ≡ true
        → result ≡ Err WordsRefusal.Words
        → fault_of (app_of command.entry) (map string_bytes words.entry.now) ≢ [] }
{
    match command.try_get_matches_from(words) {
        Ok(matches) => Ok(matches),
        Err(error) => Err(refusal_of(&error)),
    }
}

/// What is told of a fault that clap found.
fn refusal_of(error: &Error) -> WordsRefusal
    ensures memory { kind_of error.now ≡ ErrorKind.OutOfMemory → result ≡ WordsRefusal.NoMemory }
    ensures words { kind_of error.now ≢ ErrorKind.OutOfMemory → result ≡ WordsRefusal.Words }
{
    match error.kind() {
        ErrorKind::OutOfMemory => WordsRefusal::NoMemory,
        _ => WordsRefusal::Words,
    }
}
