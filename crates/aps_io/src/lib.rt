//! Bytes in and out: sources and sinks that count their faults, a source read to its end, and a text written whole.
#![tactic(auto)]

mod all;
mod calm;
mod scripted;
mod sink;
mod source;
mod standard;
mod words;

pub use all::{ReadRefusal, WriteRefusal, read_all, write_all};
pub use calm::{CalmSink, CalmSource};
pub use scripted::{MemSink, MemSource};
pub use sink::{Sink, WriteAnswer};
pub use source::{ReadAnswer, Source};
pub use standard::{StdSink, StdSource};
pub use words::words_of;
