//! The usage of the program, for words that are no command.
ghost use Rattle.std.specs.Prelude.{◌≡◌, map, string_bytes};
ghost use Rattle.aps_hints.specs.Words as spec;

/// Whose usage is told.
#[derive(Clone, Copy, PartialEq, Eq)]
pub enum Usage {
    /// That of all commands.
    All,
    Solo,
    Run,
    Check,
    Admit,
    Upgrade,
    Gen,
}

impl Usage {
    /// The lines of the usage, each with its newline.
    pub fn text(self) -> &'static str
        ensures { spec.TellsUsage self result.now }
    {
        match self {
            Usage::All => ALL,
            Usage::Solo => SOLO,
            Usage::Run => RUN,
            Usage::Check => CHECK,
            Usage::Admit => ADMIT,
            Usage::Upgrade => UPGRADE,
            Usage::Gen => GEN,
        }
    }
}

const SOLO: &str = "usage: apsim solo [--report summary|windows|journal] [--limit N] < SCENARIO.toml
  N: 1 to 4000000 entries, 1000000 where it isn't given
";

const RUN: &str =
    "usage: apsim run [--order free|fixed] [--report summary|windows|journal] [--limit N] < SCENARIO.toml
  N: 1 to 4000000 entries, 1000000 where it isn't given
";

const CHECK: &str = "usage: apsim check [--order free|fixed] [--limit N] < SCENARIO_AND_JOURNAL
  the input is a scenario, the line --- journal, and a journal
  N: 1 to 4000000 entries, 1000000 where it isn't given
";

const ADMIT: &str = "usage: apsim admit < DEMANDS.toml
";

const UPGRADE: &str = "usage: apsim upgrade < SCENARIO.toml
";

const GEN: &str = "usage: apsim gen --seed N --cpus M --partitions K --ticks T
  N: any number; M: 1 to 16; K: 1 to 32, System counted; T: 1 to 1000000
";

const ALL: &str = "usage: apsim COMMAND [OPTION ..]
  solo     runs a scenario on one thread      --report R  --limit N
  run      with a thread for each processor   --order O  --report R  --limit N
  check    judges a journal of a scenario     --order O  --limit N
  admit    grants budgets to demands
  upgrade  writes a scenario with budgets in parts per thousand
  gen      writes a scenario                  --seed N  --cpus M  --partitions K  --ticks T
  R: summary, windows or journal; O: free or fixed
";

/// The usage that such words ask for: that of the command that the first word names, or else that of all commands.
pub fn usage_meant(words: &[String]) -> Usage
    ensures { result ≡ spec.usage_meant (map string_bytes words.now) }
{
    match words {
        [word, ..] => run_meant(word.as_str()),
        [] => Usage::All,
    }
}

/// The usage of the command that runs a scenario or judges a run, by its word.
fn run_meant(word: &str) -> Usage
    ensures { result ≡ spec.run_meant word.now }
{
    match word {
        "solo" => Usage::Solo,
        "run" => Usage::Run,
        "check" => Usage::Check,
        other => text_meant(other),
    }
}

/// The usage of the command that makes a text, by its word.
fn text_meant(word: &str) -> Usage
    ensures { result ≡ spec.text_meant word.now }
{
    match word {
        "admit" => Usage::Admit,
        "upgrade" => Usage::Upgrade,
        "gen" => Usage::Gen,
        _ => Usage::All,
    }
}

/// The usage that is told of words that are no command: that of the command that was meant, or of all.
pub fn words_hint(words: &[String]) -> &'static str
    ensures { spec.TellsUsage (spec.usage_meant (map string_bytes words.now)) result.now }
{
    usage_meant(words).text()
}
