//! An example of the live scheduler's use: four worker threads in two partitions share two processors. Each asks after each
//! piece of work who may go on, and hands its processor on to the worker that was picked. Without a word the moments are
//! counted, so that the outcome is the same on each machine; with the word `clock` they are the machine's.
#![tactic(auto)]

mod clock_pace;
mod counted_pace;
mod error;
mod mailbox;
mod pace;
mod pool;
mod run;
mod share;
mod slot;
mod start;
mod work;

use crate::clock_pace::ClockPace;
use crate::counted_pace::CountedPace;
use crate::error::PoolError;
use crate::run::{Outcome, run};
use crate::share::{billed_ns, due_ns, steps_of, told_ns};
use crate::work::Worker;
use aps_model::{Entry, PartitionId};
use std::process::ExitCode;
use std::{env, io};

/// The partitions with a budget, in parts of 100.
const PARTITIONS: [(usize, &str, u8); 2] = [(1, "Front", 70), (2, "Back", 30)];

/// Whose moments the workers tell.
enum Mode {
    Counted,
    Clock,
}

/// The mode that the words after the program's name ask for.
fn mode_of(rt: &HostRuntime) -> Result<Mode, PoolError> {
    let mut words = env::args(rt)?.skip(1);
    match words.next() {
        None => Ok(Mode::Counted),
        Some(word) if word.as_str() == "clock" && words.next().is_none() => Ok(Mode::Clock),
        Some(_) => Err(PoolError::Words),
    }
}

fn main(rt: HostRuntime) -> ExitCode {
    match mode_of(&rt) {
        Ok(Mode::Counted) => ended(&rt, "counted", &run(&rt, rt.alloc(), &CountedPace::new())),
        Ok(Mode::Clock) => match ClockPace::start(&rt) {
            Ok(pace) => ended(&rt, "clock", &run(&rt, rt.alloc(), &pace)),
            Err(error) => failed(&rt, &PoolError::Io(error)),
        },
        Err(error) => failed(&rt, &error),
    }
}

/// Tells of a run.
fn ended(rt: &HostRuntime, moments: &str, outcome: &Result<Outcome, PoolError>) -> ExitCode {
    match outcome {
        Ok(outcome) => {
            let entries = outcome.history.entries();
            match report(rt, moments, entries, &outcome.workers) {
                Ok(()) => ExitCode::SUCCESS,
                Err(error) => failed(rt, &PoolError::Io(error)),
            }
        }
        Err(error) => failed(rt, error),
    }
}

/// Tells why there is no report.
fn failed(rt: &HostRuntime, error: &PoolError) -> ExitCode {
    // there is nobody to tell where standard error fails too
    let _ = eprintln!(rt; "aps_pool: {error}");
    ExitCode::FAILURE
}

/// Prints what each partition got of the processors' time, and what each worker did.
fn report(
    rt: &HostRuntime,
    moments: &str,
    entries: &[Entry],
    workers: &[Worker],
) -> io::Result<()> {
    println!(rt; "aps pool 1")?;
    println!(rt; "moments {moments}")?;
    report_partitions(rt, entries)?;
    report_workers(rt, entries, workers)
}

/// Prints how much time was told, and each partition's share of it.
fn report_partitions(rt: &HostRuntime, entries: &[Entry]) -> io::Result<()> {
    let told = told_ns(entries);
    println!(rt; "told {told}")?;
    for (index, name, budget) in PARTITIONS {
        let due = due_ns(told, budget);
        let got = billed_ns(entries, PartitionId::at(index));
        println!(rt; "partition {name} budget {budget} due {due} got {got}")?;
    }
    Ok(())
}

/// Prints how many pieces each worker did, and how many of its entries are found in the history.
fn report_workers(rt: &HostRuntime, entries: &[Entry], workers: &[Worker]) -> io::Result<()> {
    for worker in workers {
        let index = worker.thread.index();
        let pieces = worker.pieces;
        let digest = worker.digest;
        let found = steps_of(entries, worker.thread);
        println!(rt; "worker {index} pieces {pieces} found {found} digest {digest:016x}")?;
    }
    Ok(())
}
