//! The whole program over bytes in memory.
ghost use Rattle.std.specs.Prelude.{map, string_bytes};
ghost use Rattle.view_words.specs.Asked.{asked};
ghost use Rattle.view_top.specs.Due.{IsDueTold};

use crate::top::top;
use aps_io::{CalmSink, CalmSource};
use std::alloc::Global;

/// Does what `top` does, over a source and a sink that never fail: the status and what is written are those that the words
/// and the whole input make due, unless memory runs out, which is status 7.
pub fn calm_top(alloc: Global, words: &[String], source: &mut CalmSource, sink: &mut CalmSink) -> u8
    ensures { IsDueTold (asked (map string_bytes words.now)) source.old sink.old.written sink.new.written result }
{
    top(alloc, words, source, sink)
}
