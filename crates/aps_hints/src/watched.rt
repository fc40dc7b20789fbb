//! A sink that knows whether a write failed.
ghost use Rattle.std.specs.Prelude.{◌≡◌, false};

use aps_io::{Sink, WriteAnswer};

/// A sink that writes to another, and keeps whether one of its writes failed.
#[derive(Drop)]
pub struct WatchedSink<K: Sink> {
    sink: K,
    has_failed: bool,
}

impl<K: Sink> WatchedSink<K> {
    /// A sink of which no write has failed so far.
    pub fn new(sink: K) -> WatchedSink<K>
        ensures sink { result.sink ≡ sink }
        ensures failed { result.has_failed ≡ false }
    {
        WatchedSink {
            sink,
            has_failed: false,
        }
    }

    /// Whether a write failed.
    pub fn has_failed(&self) -> bool
        ensures { result ≡ self.now.has_failed }
    {
        self.has_failed
    }
}

impl<K: Sink> Sink for WatchedSink<K> {
    ghost written = { λ s. K.written s.sink };

    ghost faults = { λ s. K.faults s.sink };

    ghost shortages = { λ s. K.shortages s.sink };

    /// One write to the sink.
    fn write(&mut self, piece: &[u8]) -> WriteAnswer {
        let answer = self.sink.write(piece);
        if answer == WriteAnswer::Failed {
            self.has_failed = true;
        }
        answer
    }
}
