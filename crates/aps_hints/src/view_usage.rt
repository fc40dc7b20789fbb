//! The usage of `apsview`, for words that ask for no report.
ghost use Rattle.std.specs.Prelude.{◌≡◌, map, string_bytes};
ghost use Rattle.aps_hints.specs.ViewUsage as spec;

/// The report whose usage is told.
#[derive(Clone, Copy, PartialEq, Eq)]
pub enum ViewUsage {
    /// That of all reports.
    All,
    Shares,
    Latency,
    Explain,
    Csv,
    Cycles,
    Timeline,
    Threads,
    Usage,
    Vcd,
    Gtkw,
    Trace,
}

impl ViewUsage {
    /// The lines of the usage, each with its newline.
    pub fn text(self) -> &'static str
        ensures { spec.TellsViewUsage self result.now }
    {
        match self {
            ViewUsage::All => ALL,
            ViewUsage::Shares => SHARES,
            ViewUsage::Latency => LATENCY,
            ViewUsage::Explain => EXPLAIN,
            ViewUsage::Csv => CSV,
            ViewUsage::Cycles => CYCLES,
            ViewUsage::Timeline => TIMELINE,
            ViewUsage::Threads => THREADS,
            ViewUsage::Usage => USAGE,
            ViewUsage::Vcd => VCD,
            ViewUsage::Gtkw => GTKW,
            ViewUsage::Trace => TRACE,
        }
    }
}

const ALL: &str = "usage: apsview REPORT [OPTION ..] < INPUT
  REPORT: shares, latency, explain, csv, cycles, timeline, threads, usage, vcd, gtkw or trace
  INPUT: a scenario, or a scenario, the line --- journal and a journal of it
";

const SHARES: &str = "usage: apsview shares [--limit N] < INPUT
  N: 1 to 4000000 entries, 1000000 where it isn't given
";

const LATENCY: &str = "usage: apsview latency [--limit N] < INPUT
  N: 1 to 4000000 entries, 1000000 where it isn't given
";

const EXPLAIN: &str = "usage: apsview explain --thread NAME --at NS [--limit N] < INPUT
  NS: 0 to 10000000000000; N: 1 to 4000000 entries, 1000000 where it isn't given
";

const CSV: &str = "usage: apsview csv [--from TICK] [--to TICK] [--limit N] < INPUT
  TICK: 0 to 1000000; N: 1 to 4000000 entries, 1000000 where it isn't given
";

const CYCLES: &str = "usage: apsview cycles [--limit N] < INPUT
  N: 1 to 4000000 entries, 1000000 where it isn't given
";

const TIMELINE: &str = "usage: apsview timeline [--from TICK] [--to TICK] [--limit N] < INPUT
  TICK: 0 to 1000000; N: 1 to 4000000 entries, 1000000 where it isn't given
";

const THREADS: &str = "usage: apsview threads [--from TICK] [--to TICK] [--limit N] < INPUT
  TICK: 0 to 1000000; N: 1 to 4000000 entries, 1000000 where it isn't given
";

const USAGE: &str = "usage: apsview usage [--from TICK] [--to TICK] [--limit N] < INPUT
  TICK: 0 to 1000000; N: 1 to 4000000 entries, 1000000 where it isn't given
";

const VCD: &str = "usage: apsview vcd [--limit N] < INPUT
  N: 1 to 4000000 entries, 1000000 where it isn't given
";

const GTKW: &str = "usage: apsview gtkw [--limit N] < INPUT
  N: 1 to 4000000 entries, 1000000 where it isn't given
";

const TRACE: &str = "usage: apsview trace [--limit N] < INPUT
  N: 1 to 4000000 entries, 1000000 where it isn't given
";

/// The usage that such words ask for: that of the report that the first word names, or else that of all reports.
pub fn view_usage_meant(words: &[String]) -> ViewUsage
    ensures { result ≡ spec.view_usage_meant (map string_bytes words.now) }
{
    match words {
        [word, ..] => text_meant(word.as_str()),
        [] => ViewUsage::All,
    }
}

/// The usage of the report that is a text, by its word.
fn text_meant(word: &str) -> ViewUsage
    ensures { result ≡ spec.view_text_meant word.now }
{
    match word {
        "shares" => ViewUsage::Shares,
        "latency" => ViewUsage::Latency,
        "explain" => ViewUsage::Explain,
        "csv" => ViewUsage::Csv,
        "cycles" => ViewUsage::Cycles,
        other => picture_meant(other),
    }
}

/// The usage of the report that is a picture, by its word.
fn picture_meant(word: &str) -> ViewUsage
    ensures { result ≡ spec.picture_meant word.now }
{
    match word {
        "timeline" => ViewUsage::Timeline,
        "threads" => ViewUsage::Threads,
        "usage" => ViewUsage::Usage,
        other => trace_meant(other),
    }
}

/// The usage of the report that is a trace, by its word.
fn trace_meant(word: &str) -> ViewUsage
    ensures { result ≡ spec.trace_meant word.now }
{
    match word {
        "vcd" => ViewUsage::Vcd,
        "gtkw" => ViewUsage::Gtkw,
        "trace" => ViewUsage::Trace,
        _ => ViewUsage::All,
    }
}
