//! One line of a journal, written without an allocator.
ghost use Rattle.std.specs.Prelude.{◌≡◌, ◌+◌, ◌<◌, ◌≤◌, ◌++◌, List, [], ◌∷◌, length, drop, if◌then◌else◌, codes, IsAscii, IsTrue, IfSome};
ghost use Rattle.std.specs.Fmt.{decimal};
ghost use Rattle.aps_model.specs.Journal.{option_text, done_text, thread_in, entry_line, IsLine};
ghost use Rattle.aps_model.specs.Limits.{last_cpu, last_partition, last_thread};
ghost use Rattle.aps_text.specs.InTime.{IsInTime};
ghost use Rattle.aps_text.specs.Ascii.{is_ascii};

use aps_model::{CpuId, Done, Entry, PartitionId, ThreadId};
use itoa::write_digits;
use std::marker::Model;

/// The most bytes that the line of an entry has, its newline among them: both moments have the 20 digits of the greatest
/// `u64` then.
pub const MAX_LINE: usize = 87;

/// Room for one line of a journal. Nothing that it does takes memory from an allocator.
#[derive(Drop)]
pub struct LineBuffer {
    // The text stands at the end, since it is written from its last byte to its first: so each
    // number is put where it stays, however many digits it has.
    bytes: [u8; MAX_LINE],
    start: usize,
}

impl Model for LineBuffer {
    ghost use Rattle.std.specs.Prelude.{ℕ, List, ◌≤◌, drop, IsAscii};
    ghost use Rattle.aps_text.specs.Line.{longest_line};

    ghost Value = { List ℕ };

    ghost view = { λ b. drop b.start b.bytes };

    ghost invariant = { λ b. (b.start ≤ longest_line) × IsAscii (drop b.start b.bytes) };
}

#[tactic(auto, using(crate::proofs::Digits::digits))]
impl LineBuffer {
    /// An empty buffer.
    pub fn new() -> Self
        ensures { result ≡ [] }
    {
        LineBuffer {
            bytes: [0; MAX_LINE],
            start: MAX_LINE,
        }
    }

    /// The line of this entry, with its newline. What the buffer had before is gone.
    pub fn line(&mut self, entry: &Entry) -> &[u8]
        ensures text { result.now ≡ entry_line entry.now }
        ensures short { length result.now ≤ MAX_LINE }
        ensures ascii { IsAscii result.now }
        ensures within { IsInTime entry.now → IsLine entry.now }
    {
        self.clear();
        self.put_pick(entry);
        self.put_byte(b' ');
        self.put_done(&entry.done);
        self.put_bill(entry);
        self.put_span(entry);
        let filled = &*self;
        &filled.bytes[filled.start..]
    }

    fn clear(&mut self)
        ensures { self.new ≡ [] }
    {
        self.start = MAX_LINE;
    }

    // The last three fields, and the newline.
    fn put_pick(&mut self, entry: &Entry)
        requires { length self.old + 11 ≤ MAX_LINE }
        ensures text { self.new ≡ option_text entry.now.picked
            ++ (32 ∷ (option_text entry.now.starved ++ (32 ∷ (option_text entry.now.flagged ++ (10 ∷ self.old))))) }
        ensures long { length self.new ≤ length self.old + 11 }
        ensures picked { IfSome entry.now.picked (λ thread. thread ≤ last_thread) }
        ensures starved { IfSome entry.now.starved (λ partition. partition ≤ last_partition) }
        ensures flagged { IfSome entry.now.flagged (λ cpu. cpu ≤ last_cpu) }
    {
        self.put_byte(b'\n');
        self.put_cpu(entry.flagged);
        self.put_byte(b' ');
        self.put_partition(entry.starved);
        self.put_byte(b' ');
        self.put_thread(entry.picked);
    }

    // Who ran and who is billed, with the mark of critical time, and a space after each.
    fn put_bill(&mut self, entry: &Entry)
        requires { length self.old + 10 ≤ MAX_LINE }
        ensures text { self.new ≡ option_text entry.now.ran
            ++ (32 ∷ (option_text entry.now.billed ++ (32 ∷ ((if entry.now.critical then codes "c" else codes "-") ++ (32 ∷ self.old))))) }
        ensures long { length self.new ≤ length self.old + 10 }
        ensures ran { IfSome entry.now.ran (λ thread. thread ≤ last_thread) }
        ensures billed { IfSome entry.now.billed (λ partition. partition ≤ last_partition) }
    {
        self.put_byte(b' ');
        self.put_byte(if entry.critical { b'c' } else { b'-' });
        self.put_byte(b' ');
        self.put_partition(entry.billed);
        self.put_byte(b' ');
        self.put_thread(entry.ran);
    }

    // The processor and the two moments, and a space after each.
    fn put_span(&mut self, entry: &Entry)
        requires { length self.old + 45 ≤ MAX_LINE }
        ensures text { self.new ≡ decimal entry.now.cpu
            ++ (32 ∷ (decimal entry.now.from ++ (32 ∷ (decimal entry.now.to ++ (32 ∷ self.old))))) }
        ensures long { length self.new ≤ length self.old + 45 }
        ensures cpu { entry.now.cpu ≤ last_cpu }
    {
        self.put_byte(b' ');
        self.put_number(entry.to);
        self.put_byte(b' ');
        self.put_number(entry.from);
        self.put_byte(b' ');
        self.put_number(entry.cpu.index() as u64);
    }

    // What the operation did.
    fn put_done(&mut self, done: &Done)
        requires { length self.old + 20 ≤ MAX_LINE }
        ensures text { self.new ≡ done_text done.now ++ self.old }
        ensures long { length self.new ≤ length self.old + 20 }
        ensures thread { IfSome (thread_in done.now) (λ thread. thread ≤ last_thread) }
    {
        match done {
            Done::Nothing => self.put_word(b"-"),
            Done::Run => self.put_word(b"run"),
            Done::Yield => self.put_word(b"yield"),
            Done::SendBlocked => self.put_word(b"send:blocked"),
            Done::SendTo(thread) => self.put_named(b"send:", *thread),
            Done::ReceiveBlocked => self.put_word(b"receive:blocked"),
            Done::ReceiveGot(thread) => self.put_named(b"receive:", *thread),
            Done::ReceiveHolding(thread) => self.put_named(b"receive:holding:", *thread),
            Done::ReplyFreed(thread) => self.put_named(b"reply:", *thread),
            Done::ReplyNoClient => self.put_word(b"reply:none"),
            Done::Join => self.put_word(b"join"),
            Done::JoinNone => self.put_word(b"join:none"),
            Done::Priority => self.put_word(b"priority"),
            Done::CriticalOn => self.put_word(b"critical:on"),
            Done::CriticalOff => self.put_word(b"critical:off"),
            Done::Repeat => self.put_word(b"repeat"),
            Done::Exit => self.put_word(b"exit"),
        }
    }

    // A word of at most 16 bytes, and the number of a thread.
    fn put_named(&mut self, word: &[u8], thread: ThreadId)
        requires short { length word.now ≤ 16 }
        requires ascii { IsTrue (is_ascii word.now) }
        requires room { length self.old + 20 ≤ MAX_LINE }
        ensures text { self.new ≡ (word.now ++ decimal thread) ++ self.old }
        ensures long { length self.new ≤ length self.old + 20 }
        ensures small { thread ≤ last_thread }
    {
        self.put_number(thread.index() as u64);
        self.put_word(word);
    }

    // A processor, or `-`.
    fn put_cpu(&mut self, cpu: Option<CpuId>)
        requires { length self.old + 2 ≤ MAX_LINE }
        ensures text { self.new ≡ option_text cpu ++ self.old }
        ensures long { length self.new ≤ length self.old + 2 }
        ensures small { IfSome cpu (λ cpu. cpu ≤ last_cpu) }
    {
        match cpu {
            Some(cpu) => self.put_number(cpu.index() as u64),
            None => self.put_byte(b'-'),
        }
    }

    // A partition, or `-`.
    fn put_partition(&mut self, partition: Option<PartitionId>)
        requires { length self.old + 2 ≤ MAX_LINE }
        ensures text { self.new ≡ option_text partition ++ self.old }
        ensures long { length self.new ≤ length self.old + 2 }
        ensures small { IfSome partition (λ partition. partition ≤ last_partition) }
    {
        match partition {
            Some(partition) => self.put_number(partition.index() as u64),
            None => self.put_byte(b'-'),
        }
    }

    // A thread, or `-`.
    fn put_thread(&mut self, thread: Option<ThreadId>)
        requires { length self.old + 4 ≤ MAX_LINE }
        ensures text { self.new ≡ option_text thread ++ self.old }
        ensures long { length self.new ≤ length self.old + 4 }
        ensures small { IfSome thread (λ thread. thread ≤ last_thread) }
    {
        match thread {
            Some(thread) => self.put_number(thread.index() as u64),
            None => self.put_byte(b'-'),
        }
    }

    fn put_byte(&mut self, byte: u8)
        requires ascii { byte < 128 }
        requires room { length self.old < MAX_LINE }
        ensures { self.new ≡ byte ∷ self.old }
    {
        self.start -= 1;
        self.bytes[self.start] = byte;
    }

    fn put_word(&mut self, word: &[u8])
        requires ascii { IsTrue (is_ascii word.now) }
        requires room { length word.now + length self.old ≤ MAX_LINE }
        ensures { self.new ≡ word.now ++ self.old }
    {
        let end = self.start;
        self.start -= word.len();
        self.bytes[self.start..end].copy_from_slice(word);
    }

    fn put_number(&mut self, number: u64)
        requires { length (decimal number) + length self.old ≤ MAX_LINE }
        ensures { self.new ≡ decimal number ++ self.old }
    {
        self.start = write_digits(number, &mut self.bytes, self.start);
    }
}
