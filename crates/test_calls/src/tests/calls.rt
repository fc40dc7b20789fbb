//! What the calls of the tests are given, and how they end. These helpers have no clauses, so that the checks of the tests are about
//! what a call gives.
use aps_io::{CalmSink, CalmSource, Sink, Source};
use aps_model::History;
use aps_top::top::calm_top;
use std::alloc::Global;
use std::process::Abort;

/// How a call ends: its status, and how many entries its history has, if there is one.
pub type End = (u8, Option<usize>);

pub fn words_of(rt: &impl Abort, alloc: Global, words: &[&str]) -> Vec<String> {
    let mut owned = Vec::new(alloc);
    for word in words {
        let word = word.to_string(alloc).expect(rt, "memory");
        owned.push(word).expect(rt, "memory");
    }
    owned
}

pub fn source_of(rt: &impl Abort, alloc: Global, bytes: &[u8]) -> CalmSource {
    CalmSource::new(bytes.to_vec(alloc).expect(rt, "memory"))
}

pub fn entries_of(history: &Option<History>) -> Option<usize> {
    history.as_ref().map(|history| history.entries().len())
}

/// How a call with these words ends.
pub fn end_of<S: Source, K: Sink>(
    alloc: Global,
    words: &[String],
    source: &mut S,
    sink: &mut K,
) -> End {
    let ended = calm_top(alloc, words, source, sink);
    (ended.status, entries_of(&ended.history))
}

/// What a call with these words writes over this input, under status 0.
pub fn text_of(rt: &impl Abort, alloc: Global, words: &[&str], input: &[u8]) -> CalmSink {
    let words = words_of(rt, alloc, words);
    let mut source = source_of(rt, alloc, input);
    let mut sink = CalmSink::new(Vec::new(alloc));
    let end = end_of(alloc, &words, &mut source, &mut sink);
    assert_eq!(rt; end.0, 0);
    sink
}

/// What `solo` writes of this input as its journal.
pub fn journal_of(rt: &impl Abort, alloc: Global, input: &[u8]) -> CalmSink {
    text_of(rt, alloc, &["solo", "--report=journal"], input)
}
