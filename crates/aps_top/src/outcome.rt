//! The outcome of a call of the program, by its command and its input.
ghost use Rattle.std.specs.Prelude.{◌≡◌, ◌≤◌, [], Some, map, string_bytes, IfOk, Ok};
ghost use Rattle.aps_gen.specs.Generated.{generated};
ghost use Rattle.aps_scenario.specs.Reading.{reads};
ghost use Rattle.aps_model.specs.Upgrade.{upgraded};
ghost use Rattle.aps_words.specs.Command.{HasRanges, command};
ghost use Rattle.aps_words.specs.declared.command.Command.TheVariants as asked;
ghost use Rattle.aps_top.specs.Asked.{calm, calm_command};
ghost use Rattle.aps_top.specs.Cause.{Input, HasCause, IsOutcome};
ghost use Rattle.aps_top.specs.Outcome.{Says, history_of};
ghost use Rattle.aps_calls.specs.Intake.{intake_of};
ghost use Rattle.aps_calls.specs.Printing.{output_of};
ghost use Rattle.aps_model.specs.Limits.{most_cpus, most_entries, most_partitions, most_ticks};

use crate::answer::print_admission;
use crate::reading::{read_demands, read_scenario, read_verdict};
use crate::report::print_report;
use crate::run::{begin, run_to_end};
use crate::threads::run_on_threads;
use aps_admit::{Admission, admit};
use aps_calls::failure::Failure;
use aps_calls::printing::print;
use aps_calls::status::Status;
use aps_calls::verdict::print_verdict;
use aps_check::Verdict;
use aps_cpu::Gate;
use aps_gen::generate;
use aps_io::{Sink, Source};
use aps_model::{End, History, NoMemory, Order, Scenario};
use aps_scenario::upgrade;
use aps_words::{Command, Report, WordsRefusal, command_of};
use std::alloc::Global;
use std::sync::Wait;
use std::thread::Threads;

/// The outcome of a call of the program.
#[derive(Drop)]
pub enum Outcome {
    /// There is none, for this cause.
    Failed(Failure),
    /// The scenario was run to this end, and this report is asked for.
    Ran {
        report: Report,
        end: End,
        history: History,
    },
    /// This is the text of the scenario that was asked for.
    Generated {
        text: String,
    },
    /// This is a text of the scenario that was read, with its budgets in parts per thousand.
    Upgraded {
        text: String,
    },
    /// This is the verdict on the journal that was read.
    Checked {
        verdict: Verdict,
    },
    /// This is the answer to the demands that were read.
    Admitted {
        admission: Admission,
    },
}

impl Outcome {
    /// Decides by the words, then by the reading of the source, then by what was read. `run` needs other threads.
    pub fn of<R: Threads + Wait + Sync, S: Source, G: Gate + Sync>(
        rt: &R,
        alloc: Global,
        words: &[String],
        source: &mut S,
        gate: &G,
    ) -> Outcome
        ensures { IsOutcome (command (map string_bytes words.now))
            (intake_of (S.left source.old) (S.left source.new) (S.faults source.old) (S.faults source.new)) result }
    {
        match command_of(alloc, words) {
            Ok(command) => Outcome::of_command(rt, alloc, command, source, gate),
            Err(WordsRefusal::Words) => Outcome::Failed(Failure::WordsRefused),
            Err(WordsRefusal::NoMemory) => Outcome::Failed(Failure::NoMemory),
        }
    }

    /// Decides by the reading of the source, then by what was read.
    fn of_command<R: Threads + Wait + Sync, S: Source, G: Gate + Sync>(
        rt: &R,
        alloc: Global,
        command: Command,
        source: &mut S,
        gate: &G,
    ) -> Outcome
        requires { HasRanges command }
        ensures { IsOutcome (Some command)
            (intake_of (S.left source.old) (S.left source.new) (S.faults source.old) (S.faults source.new)) result }
    {
        match command {
            Command::Run {
                order,
                report,
                limit,
            } => Outcome::of_run(rt, alloc, order, report, limit, source, gate),
            Command::Solo { .. }
            | Command::Gen { .. }
            | Command::Upgrade
            | Command::Check { .. }
            | Command::Admit => Outcome::of_calm(alloc, command, source),
        }
    }

    /// Decides as `of` does, and refuses words that need other threads.
    pub fn of_calm_words<S: Source>(alloc: Global, words: &[String], source: &mut S) -> Outcome
        ensures { IsOutcome (calm_command (map string_bytes words.now))
            (intake_of (S.left source.old) (S.left source.new) (S.faults source.old) (S.faults source.new)) result }
    {
        match command_of(alloc, words) {
            Ok(command) => Outcome::of_calm(alloc, command, source),
            Err(WordsRefusal::Words) => Outcome::Failed(Failure::WordsRefused),
            Err(WordsRefusal::NoMemory) => Outcome::Failed(Failure::NoMemory),
        }
    }

    /// Decides by the reading of the source, then by what was read. A command that needs other threads is refused.
    fn of_calm<S: Source>(alloc: Global, command: Command, source: &mut S) -> Outcome
        requires { HasRanges command }
        ensures { IsOutcome (calm command)
            (intake_of (S.left source.old) (S.left source.new) (S.faults source.old) (S.faults source.new)) result }
    {
        match command {
            Command::Solo { report, limit } => Outcome::of_solo(alloc, report, limit, source),
            Command::Run { .. } => Outcome::Failed(Failure::WordsRefused),
            Command::Gen {
                seed,
                cpus,
                partitions,
                ticks,
            } => Outcome::of_gen(alloc, seed, cpus, partitions, ticks),
            Command::Upgrade => Outcome::of_upgrade(alloc, source),
            Command::Check { order, limit } => Outcome::of_check(alloc, order, limit, source),
            Command::Admit => Outcome::of_admit(alloc, source),
        }
    }

    /// Runs the scenario of the source in fixed order.
    fn of_solo<S: Source>(alloc: Global, report: Report, limit: u32, source: &mut S) -> Outcome
        requires some { 1 ≤ limit }
        requires few { limit ≤ most_entries }
        ensures { IsOutcome (Some (asked.Solo report limit))
            (intake_of (S.left source.old) (S.left source.new) (S.faults source.old) (S.faults source.new)) result }
    {
        match begin(alloc, Order::Fixed, limit, source) {
            Ok(core) => {
                let (end, history) = run_to_end(core);
                Outcome::Ran {
                    report,
                    end,
                    history,
                }
            }
            Err(failure) => Outcome::Failed(failure),
        }
    }

    /// Runs the scenario of the source in this order, with a thread for each processor.
    fn of_run<R: Threads + Wait + Sync, S: Source, G: Gate + Sync>(
        rt: &R,
        alloc: Global,
        order: Order,
        report: Report,
        limit: u32,
        source: &mut S,
        gate: &G,
    ) -> Outcome
        requires some { 1 ≤ limit }
        requires few { limit ≤ most_entries }
        ensures { IsOutcome (Some (asked.Run order report limit))
            (intake_of (S.left source.old) (S.left source.new) (S.faults source.old) (S.faults source.new)) result }
    {
        match begin(alloc, order, limit, source) {
            Ok(core) => {
                let (end, history) = run_to_end(run_on_threads(rt, alloc, core, gate));
                Outcome::Ran {
                    report,
                    end,
                    history,
                }
            }
            Err(failure) => Outcome::Failed(failure),
        }
    }

    /// Generates a scenario from these numbers.
    fn of_gen(alloc: Global, seed: u64, cpus: u8, partitions: u8, ticks: u32) -> Outcome
        requires some_cpu { 1 ≤ cpus }
        requires few_cpus { cpus ≤ most_cpus }
        requires some_partition { 1 ≤ partitions }
        requires few_partitions { partitions ≤ most_partitions }
        requires some_tick { 1 ≤ ticks }
        requires few_ticks { ticks ≤ most_ticks }
        ensures { (input : Input) → input.asked ≡ Some (asked.Gen seed cpus partitions ticks) → input.reading.bytes ≡ []
            → HasCause input result }
    {
        match generated_text(alloc, seed, cpus, partitions, ticks) {
            Ok(text) => Outcome::Generated { text },
            Err(_) => Outcome::Failed(Failure::NoMemory),
        }
    }

    /// Upgrades the scenario of the source.
    fn of_upgrade<S: Source>(alloc: Global, source: &mut S) -> Outcome
        ensures { IsOutcome (Some asked.Upgrade)
            (intake_of (S.left source.old) (S.left source.new) (S.faults source.old) (S.faults source.new)) result }
    {
        let scenario = match read_scenario(alloc, source) {
            Ok(scenario) => scenario,
            Err(failure) => return Outcome::Failed(failure),
        };
        match upgraded_text(alloc, scenario) {
            Ok(text) => Outcome::Upgraded { text },
            Err(_) => Outcome::Failed(Failure::NoMemory),
        }
    }

    /// Judges the journal of the source.
    fn of_check<S: Source>(alloc: Global, order: Order, limit: u32, source: &mut S) -> Outcome
        requires some { 1 ≤ limit }
        requires few { limit ≤ most_entries }
        ensures { IsOutcome (Some (asked.Check order limit))
            (intake_of (S.left source.old) (S.left source.new) (S.faults source.old) (S.faults source.new)) result }
    {
        match read_verdict(alloc, order, limit, source) {
            Ok(verdict) => Outcome::Checked { verdict },
            Err(failure) => Outcome::Failed(failure),
        }
    }

    /// Answers the demands of the source.
    fn of_admit<S: Source>(alloc: Global, source: &mut S) -> Outcome
        ensures { IsOutcome (Some asked.Admit)
            (intake_of (S.left source.old) (S.left source.new) (S.faults source.old) (S.faults source.new)) result }
    {
        let demands = match read_demands(alloc, source) {
            Ok(demands) => demands,
            Err(failure) => return Outcome::Failed(failure),
        };
        match admit(alloc, demands.shape(), demands.as_slice()) {
            Ok(admission) => Outcome::Admitted { admission },
            Err(_) => Outcome::Failed(Failure::NoMemory),
        }
    }

    /// Writes the text of the outcome, and gives the status that comes of it.
    pub fn say<K: Sink>(&self, alloc: Global, sink: &mut K) -> Status
        ensures { Says (output_of (K.written sink.old) (K.written sink.new) (K.faults sink.old) (K.faults sink.new)
            (K.shortages sink.old) (K.shortages sink.new)) self.now result }
    {
        match self {
            Outcome::Failed(failure) => failure.say(alloc, sink),
            Outcome::Ran {
                report,
                end,
                history,
            } => print_report(alloc, *report, history, Status::of_end(end), sink),
            Outcome::Generated { text } | Outcome::Upgraded { text } => print(
                sink,
                text.as_bytes(),
                Status::Done,
            ),
            Outcome::Checked { verdict } => print_verdict(alloc, verdict, sink),
            Outcome::Admitted { admission } => print_admission(alloc, admission, sink),
        }
    }

    /// The history, if there was a run.
    pub fn into_history(self) -> Option<History>
        ensures { result ≡ history_of self }
    {
        match self {
            Outcome::Ran { history, .. } => Some(history),
            _ => None,
        }
    }
}

/// The text of the scenario that is generated from these numbers.
fn generated_text(
    alloc: Global,
    seed: u64,
    cpus: u8,
    partitions: u8,
    ticks: u32,
) -> Result<String, NoMemory>
    requires some_cpu { 1 ≤ cpus }
    requires few_cpus { cpus ≤ most_cpus }
    requires some_partition { 1 ≤ partitions }
    requires few_partitions { partitions ≤ most_partitions }
    requires some_tick { 1 ≤ ticks }
    requires few_ticks { ticks ≤ most_ticks }
    ensures { IfOk result (λ text. reads (string_bytes text) ≡ Ok (generated seed cpus partitions ticks)) }
{
    let scenario = generate(alloc, seed, cpus, partitions, ticks)?;
    aps_scenario::print(alloc, &scenario)
}

/// A text of the scenario with its budgets in parts per thousand.
fn upgraded_text(alloc: Global, scenario: Scenario) -> Result<String, NoMemory>
    ensures { IfOk result (λ text. reads (string_bytes text) ≡ Ok (upgraded scenario)) }
{
    let upgraded = upgrade(scenario);
    aps_scenario::print(alloc, &upgraded)
}
