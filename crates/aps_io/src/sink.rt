//! Where bytes go.
ghost use Rattle.std.specs.Prelude.{◌<◌, ℕ, List, length};
ghost use Rattle.std.specs.declared.option.Option.{Option};
ghost use Rattle.aps_io.specs.Bytes.{Writes, WriteCause};
ghost use Rattle.aps_io.specs.declared.sink.WriteAnswer.TheVariants.{Failed, NoMemory};

/// What a write did: it took so many bytes, met a fault, or found no memory for them.
#[derive(Clone, Copy, Debug, PartialEq, Eq)]
pub enum WriteAnswer {
    Wrote(usize),
    Failed,
    NoMemory,
}

/// A sink of bytes that counts its faults.
pub trait Sink {
    /// The bytes written so far, where the sink tells.
    ghost written: { Self → Option (List ℕ) };

    /// A count of faults, which stands still at the greatest `u64`.
    ghost faults: { Self → ℕ };

    /// A count of the wants of memory, which stands still at the greatest `u64`. A sink that takes
    /// no memory leaves it at 0, and so never answers `NoMemory`.
    ghost shortages: { Self → ℕ } = { λ _. 0 };

    /// Appends the first bytes of `piece`, at least one. After `Failed` and `NoMemory` nothing was
    /// appended, and the count of such answers rose.
    fn write(&mut self, piece: &[u8]) -> WriteAnswer
        requires { 0 < length piece.now }
        ensures bytes { Writes (written self.old) (written self.new) result piece.now }
        ensures fault { WriteCause (faults self.old) (faults self.new) result Failed }
        ensures shortage { WriteCause (shortages self.old) (shortages self.new) result NoMemory };
}
