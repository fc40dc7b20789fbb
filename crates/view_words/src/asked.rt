//! The report that a list of words asks for.
ghost use Rattle.std.specs.Prelude.{◌≡◌, [], ◌∷◌, drop, map, string_bytes, true, IfOk, IfSome};
ghost use Rattle.clap.specs.Words.{first_value, found_of};
ghost use Rattle.aps_words.specs.Command.{WordsMean};
ghost use Rattle.aps_words.specs.Plain.{is_plain};
ghost use Rattle.aps_words.specs.Unhyphened.{with_unhyphened};
ghost use Rattle.view_words.specs.Asked as spec;
ghost use Rattle.view_words.specs.Values.{AreTicks};

use crate::options::{limit_options, thread_options, ticks_options};
use crate::values::{thread_of, ticks_of};
use aps_model::limits::LAST_MOMENT;
use aps_model::{Name, Nanos};
use aps_words::options::matches_in;
use aps_words::{WordsRefusal, is_plain, limit_of, required_in};
use clap::ArgMatches;
use std::alloc::Global;

/// From a tick, 0 to 1,000,000, to a later one, up to 1,000,000; or to the end, where there is none.
#[derive(Clone, Copy, PartialEq, Eq)]
pub struct Ticks {
    pub from: u32,
    pub to: Option<u32>,
}

/// A picture in SVG.
#[derive(Clone, Copy, PartialEq, Eq)]
pub enum Picture {
    /// A lane for each processor.
    Timeline,
    /// A lane for each thread.
    Threads,
    /// What each partition used of its budget.
    Usage,
}

/// A file for a viewer of traces.
#[derive(Clone, Copy, PartialEq, Eq)]
pub enum Trace {
    /// Signals as a value change dump.
    Vcd,
    /// Which of these signals GTKWave shows, and in which order.
    Gtkw,
    /// Trace events in JSON.
    Events,
}

/// What is written of a history.
#[derive(Clone, Copy, PartialEq, Eq)]
pub enum Report {
    /// The cycles of each thread that have ended.
    Cycles,
    /// What each partition used and was allowed, by tick.
    Csv { ticks: Ticks },
    /// Whether each partition gets its share, and when it overspends.
    Shares,
    /// What each thread waits for, and how long.
    Latency,
    /// Why the thread of this name does or doesn't run at this moment, up to 10,000,000,000,000 ns. There is no name where
    /// the given text is none: no thread has it.
    Explain { thread: Option<Name>, at: Nanos },
    /// A picture of these ticks.
    Picture { picture: Picture, ticks: Ticks },
    /// A file for a viewer of traces.
    Trace { trace: Trace },
}

/// What the program is asked for: a report of a history of up to `limit` entries, 1 to 4,000,000.
#[derive(Clone, Copy, PartialEq, Eq)]
pub struct Asked {
    pub report: Report,
    pub limit: u32,
}

/// What these words ask for (docs/FORMATS.md, "Views"): the word of a report, and then its options in any order, each at most
/// once, as `--name value` or `--name=value`. Numbers have the ranges that `Asked` names. Without `--limit` the limit is
/// 1,000,000 entries, without `--from` the ticks begin with 0, and without `--to` they have no end. `explain` needs
/// `--thread`, which takes any text, and `--at`. A value that begins with a hyphen and goes on is given behind `=`.
///
/// All other words are refused: another report or none, `--`, an option that the report doesn't have, an option twice or
/// without a value, a value that is none of the option's, ticks that end before they begin, any further word, and words
/// that ask for help or for the version. `NoMemory` comes where memory runs out, and tells nothing of the words.
pub fn asked_of(alloc: Global, words: &[String]) -> Result<Asked, WordsRefusal>
    ensures same { WordsMean result (spec.asked (map string_bytes words.now)) }
    ensures ranges { IfOk result spec.AskedHasRanges }
{
    let [word, options @ ..] = words else {
        return Err(WordsRefusal::Words);
    };
    if !is_plain(alloc, options)? {
        return Err(WordsRefusal::Words);
    }
    plainly_asked(alloc, word.as_str(), words)
}

/// What this word asks for, which is the first of the words, with the options behind it.
fn plainly_asked(alloc: Global, word: &str, words: &[String]) -> Result<Asked, WordsRefusal>
    requires plain { is_plain [] (drop 1 (map string_bytes words.now)) ≡ true }
    ensures same { WordsMean result (spec.asked (word.now ∷ drop 1 (map string_bytes words.now))) }
    ensures ranges { IfOk result spec.AskedHasRanges }
{
    match word {
        "cycles" => limited(alloc, words, Report::Cycles),
        "csv" => csv_of(alloc, words),
        "timeline" => picture_of(alloc, words, Picture::Timeline),
        "threads" => picture_of(alloc, words, Picture::Threads),
        "usage" => picture_of(alloc, words, Picture::Usage),
        "vcd" => limited(alloc, words, traced(Trace::Vcd)),
        "gtkw" => limited(alloc, words, traced(Trace::Gtkw)),
        "trace" => limited(alloc, words, traced(Trace::Events)),
        "shares" => limited(alloc, words, Report::Shares),
        "latency" => limited(alloc, words, Report::Latency),
        "explain" => explain_of(alloc, words),
        _ => Err(WordsRefusal::Words),
    }
}

/// A report that has but the option of each, by the words behind the first.
fn limited(alloc: Global, words: &[String], report: Report) -> Result<Asked, WordsRefusal>
    requires plain { is_plain [] (drop 1 (map string_bytes words.now)) ≡ true }
    requires ranges { spec.ReportHasRanges report }
    ensures same { WordsMean result (with_unhyphened spec.limit_options (spec.limited report) (drop 1 (map string_bytes words.now))) }
    ensures ranges { IfOk result spec.AskedHasRanges }
{
    match matches_in(limit_options(alloc)?, words) {
        Ok(matches) => said(limited_from(&matches, report)),
        Err(refusal) => Err(refusal),
    }
}

/// `csv`, by the words behind the first.
fn csv_of(alloc: Global, words: &[String]) -> Result<Asked, WordsRefusal>
    requires plain { is_plain [] (drop 1 (map string_bytes words.now)) ≡ true }
    ensures same { WordsMean result (with_unhyphened spec.ticks_options spec.csv (drop 1 (map string_bytes words.now))) }
    ensures ranges { IfOk result spec.AskedHasRanges }
{
    match matches_in(ticks_options(alloc)?, words) {
        Ok(matches) => said(csv_from(&matches)),
        Err(refusal) => Err(refusal),
    }
}

/// A picture, by the words behind the first.
fn picture_of(alloc: Global, words: &[String], picture: Picture) -> Result<Asked, WordsRefusal>
    requires plain { is_plain [] (drop 1 (map string_bytes words.now)) ≡ true }
    ensures same { WordsMean result (with_unhyphened spec.ticks_options (spec.picture picture) (drop 1 (map string_bytes words.now))) }
    ensures ranges { IfOk result spec.AskedHasRanges }
{
    match matches_in(ticks_options(alloc)?, words) {
        Ok(matches) => said(picture_from(&matches, picture)),
        Err(refusal) => Err(refusal),
    }
}

/// The report that is this trace.
fn traced(trace: Trace) -> Report
    ensures { result ≡ spec.traced trace }
{
    Report::Trace { trace }
}

/// `explain`, by the words behind the first.
fn explain_of(alloc: Global, words: &[String]) -> Result<Asked, WordsRefusal>
    requires plain { is_plain [] (drop 1 (map string_bytes words.now)) ≡ true }
    ensures same { WordsMean result (with_unhyphened spec.thread_options spec.explain (drop 1 (map string_bytes words.now))) }
    ensures ranges { IfOk result spec.AskedHasRanges }
{
    match matches_in(thread_options(alloc)?, words) {
        Ok(matches) => said(explain_from(&matches)),
        Err(refusal) => Err(refusal),
    }
}

/// What the options ask for, where they ask for something.
fn said(asked: Option<Asked>) -> Result<Asked, WordsRefusal>
    requires { IfSome asked spec.AskedHasRanges }
    ensures same { WordsMean result asked }
    ensures ranges { IfOk result spec.AskedHasRanges }
{
    match asked {
        Some(asked) => Ok(asked),
        None => Err(WordsRefusal::Words),
    }
}

fn limited_from(matches: &ArgMatches<'_>, report: Report) -> Option<Asked>
    requires ranges { spec.ReportHasRanges report }
    ensures same { result ≡ spec.limited report (first_value (found_of matches.now)) }
    ensures ranges { IfSome result spec.AskedHasRanges }
{
    let limit = limit_of(matches.get_str("limit"))?;
    Some(Asked { report, limit })
}

/// The ticks that the options name.
fn ticks_from(matches: &ArgMatches<'_>) -> Option<Ticks>
    ensures same { result ≡ spec.ticks_by (first_value (found_of matches.now)) }
    ensures ranges { IfSome result AreTicks }
{
    ticks_of(matches.get_str("from"), matches.get_str("to"))
}

fn csv_from(matches: &ArgMatches<'_>) -> Option<Asked>
    ensures same { result ≡ spec.csv (first_value (found_of matches.now)) }
    ensures ranges { IfSome result spec.AskedHasRanges }
{
    let ticks = ticks_from(matches)?;
    limited_from(matches, Report::Csv { ticks })
}

fn picture_from(matches: &ArgMatches<'_>, picture: Picture) -> Option<Asked>
    ensures same { result ≡ spec.picture picture (first_value (found_of matches.now)) }
    ensures ranges { IfSome result spec.AskedHasRanges }
{
    let ticks = ticks_from(matches)?;
    limited_from(matches, Report::Picture { picture, ticks })
}

fn explain_from(matches: &ArgMatches<'_>) -> Option<Asked>
    ensures same { result ≡ spec.explain (first_value (found_of matches.now)) }
    ensures ranges { IfSome result spec.AskedHasRanges }
{
    let thread = thread_of(matches.get_str("thread"))?;
    let at = required_in(0, LAST_MOMENT, matches.get_str("at"))?;
    limited_from(matches, Report::Explain { thread, at })
}
