//! Sources that fail, an input without an end, and each beginning of one.
ghost use Rattle.std.specs.Prelude.{◌<◌, ◌≤◌, ◌+◌, length, None};
ghost use Rattle.aps_io.specs.Bytes.{Reads, ReadCause};

use super::calls::{end_of, source_of, words_of};
use super::{TWO_EQUAL, TWO_PROCESSORS};
use aps_io::{CalmSink, MemSource, ReadAnswer, Source};
use aps_scenario::scenario_of;
use std::alloc::Global;
use std::process::Abort;

/// A source that gives the same byte for ever, one in each read.
#[derive(Drop)]
struct Endless;

impl Source for Endless {
    ghost left = { λ _. None };

    ghost faults = { λ _. 0 };

    fn read(&mut self, into: &mut [u8]) -> ReadAnswer
        requires { 0 < length into.old }
        ensures bytes { Reads None None result into.new }
        ensures cause { ReadCause 0 0 result }
        ensures counted { 0 ≤ 0 + 1 }
    {
        into[0] = b'#';
        ReadAnswer::Got(1)
    }
}

/// `solo` over this source has this status and writes this text, and there is no history.
fn check_refused<S: Source>(
    rt: &impl Abort,
    alloc: Global,
    source: &mut S,
    status: u8,
    text: &str,
) {
    let words = words_of(rt, alloc, &["solo"]);
    let mut sink = CalmSink::new(Vec::new(alloc));
    let end = end_of(alloc, &words, source, &mut sink);
    assert_eq!(rt; end, (status, None));
    assert_eq!(rt; sink.written(), text.as_bytes());
}

/// The bytes, with a fault in the read of this number.
fn failing_source(rt: &impl Abort, alloc: Global, text: &str, failing: u32) -> MemSource {
    let fails = vec![in alloc; failing].expect(rt, "memory");
    let bytes = text.as_bytes().to_vec(alloc).expect(rt, "memory");
    MemSource::new(bytes, fails)
}

#[test]
fn the_first_or_second_read_fails(rt: HostRuntime) {
    for failing in [0, 1] {
        let mut source = failing_source(&rt, rt.alloc(), TWO_EQUAL, failing);
        check_refused(&rt, rt.alloc(), &mut source, 4, "aps: read fault\n");
    }
}

#[test]
fn an_endless_input_is_too_long(rt: HostRuntime) {
    check_refused(&rt, rt.alloc(), &mut Endless, 8, "aps: input too long\n");
}

/// The status of `solo` over these bytes.
fn status_of_run(rt: &impl Abort, alloc: Global, bytes: &[u8]) -> u8 {
    let words = words_of(rt, alloc, &["solo"]);
    let mut sink = CalmSink::new(Vec::new(alloc));
    end_of(alloc, &words, &mut source_of(rt, alloc, bytes), &mut sink).0
}

/// The status of the bytes as a scenario that is run.
fn status_of(alloc: Global, bytes: &[u8]) -> u8 {
    if scenario_of(alloc, bytes).is_ok() {
        0
    } else {
        2
    }
}

#[test]
fn each_prefix_is_a_scenario_or_is_refused(rt: HostRuntime) {
    let text = TWO_PROCESSORS.as_bytes();
    for length in 0..text.len() {
        let prefix = &text[..length];
        let status = status_of_run(&rt, rt.alloc(), prefix);
        assert_eq!(rt; status, status_of(rt.alloc(), prefix));
    }
}
