//! A journal read back.
ghost use Rattle.std.specs.Prelude.{◌≡◌, ◌≤◌, IfOk, IfErr, IfSome, MatchResult, List, length};
ghost use Rattle.aps_model.specs.declared.entry.Entry.{Entry as PlainEntry};
ghost use Rattle.aps_model.specs.Journal.{IsJournal};
ghost use Rattle.aps_model.specs.Limits.{last_cpu, last_partition, last_thread};
ghost use Rattle.aps_text.specs.Reader.{ReadsAs};
ghost use Rattle.aps_text.specs.Line.{cpu_of_line, line_at};
ghost use Rattle.aps_text.specs.Refusal.{Refuses};
ghost use Rattle.aps_text.specs.declared.refusal.JournalRefusal.TheVariants.{NoMemory};

use crate::fields::{Reading, mark, number, number_or_none};
use crate::operation::done;
use crate::refusal::JournalRefusal;
use aps_model::limits::{LAST_CPU, LAST_MOMENT, LAST_PARTITION, LAST_THREAD};
use aps_model::{CpuId, Entry, PartitionId, ThreadId};
use std::alloc::Global;

/// The entries whose journal the bytes are, of which there is one list at most. There may be
/// 4,000,000,000 bytes, so that the number of a line and that of a column fit the refusal.
///
/// `BadLine` is the answer exactly where the bytes are no journal, unless memory runs out; it says at
/// which byte. Lines count from 1, and so do the bytes of a line, which are its columns. `NoMemory`
/// comes where there was no memory for the entries, and tells nothing of the bytes.
pub fn read_journal(alloc: Global, bytes: &[u8]) -> Result<Vec<Entry>, JournalRefusal>
    requires { length bytes.now ≤ 4000000000 }
    ensures journal { IfOk result (λ entries. IsJournal entries.items bytes.now) }
    ensures whole { (entries : List PlainEntry) → IsJournal entries bytes.now
        → MatchResult result (λ read. read.items ≡ entries) (λ refusal. refusal ≡ NoMemory) }
    ensures first_bad { IfErr result (Refuses bytes.now) }
{
    let mut entries = Vec::new(alloc);
    let mut rest = bytes;
    while !rest.is_empty() {
        match line(rest) {
            Ok((entry, after)) => {
                entries.push(entry)?;
                rest = after;
            }
            Err(bad) => {
                return Err(JournalRefusal::BadLine {
                    line: 1 + entries.len() as u32,
                    column: 1 + (rest.len() - bad.len()) as u32,
                });
            }
        }
    }
    Ok(entries)
}

/// The processor that the bytes name, as each line does first: its number and a space. `None` comes where they begin
/// otherwise. It takes no memory.
pub fn cpu_of_line(bytes: &[u8]) -> Option<CpuId>
    ensures { result ≡ cpu_of_line bytes.now }
{
    match number(bytes, LAST_CPU, b' ') {
        Ok((cpu, _)) => Some(CpuId::at(cpu as usize)),
        Err(_) => None,
    }
}

// An entry by its line.
#[tactic(auto, unfolding(crate::specs::Line::line_at))]
fn line(bytes: &[u8]) -> Reading<Entry>
    ensures { ReadsAs (λ x. (x.0, x.1.now)) result (line_at bytes.now) }
{
    let (cpu, rest) = number(bytes, LAST_CPU, b' ')?;
    let (from, rest) = number(rest, LAST_MOMENT, b' ')?;
    let (to, rest) = number(rest, LAST_MOMENT, b' ')?;
    let (ran, rest) = number_or_none(rest, LAST_THREAD, b' ')?;
    let (billed, rest) = number_or_none(rest, LAST_PARTITION, b' ')?;
    let (critical, rest) = mark(rest)?;
    // No `?` here: the check doesn't follow one on a value that holds a thread's id.
    let (done, rest) = match done(rest) {
        Ok(read) => read,
        Err(rest) => return Err(rest),
    };
    let (picked, rest) = number_or_none(rest, LAST_THREAD, b' ')?;
    let (starved, rest) = number_or_none(rest, LAST_PARTITION, b' ')?;
    let (flagged, rest) = number_or_none(rest, LAST_CPU, b'\n')?;
    let entry = Entry {
        from,
        to,
        done,
        ran: thread_of(ran),
        picked: thread_of(picked),
        billed: partition_of(billed),
        starved: partition_of(starved),
        flagged: cpu_of(flagged),
        cpu: CpuId::at(cpu as usize),
        critical,
    };
    Ok((entry, rest))
}

// The thread of this number, where there is one.
fn thread_of(number: Option<u64>) -> Option<ThreadId>
    requires { IfSome number (λ n. n ≤ last_thread) }
    ensures { result ≡ number }
{
    match number {
        Some(number) => Some(ThreadId::at(number as usize)),
        None => None,
    }
}

// The partition of this number, where there is one.
fn partition_of(number: Option<u64>) -> Option<PartitionId>
    requires { IfSome number (λ n. n ≤ last_partition) }
    ensures { result ≡ number }
{
    match number {
        Some(number) => Some(PartitionId::at(number as usize)),
        None => None,
    }
}

// The processor of this number, where there is one.
fn cpu_of(number: Option<u64>) -> Option<CpuId>
    requires { IfSome number (λ n. n ≤ last_cpu) }
    ensures { result ≡ number }
{
    match number {
        Some(number) => Some(CpuId::at(number as usize)),
        None => None,
    }
}
