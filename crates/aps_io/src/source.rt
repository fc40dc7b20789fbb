//! Where bytes come from.
ghost use Rattle.std.specs.Prelude.{◌<◌, ◌≤◌, ◌+◌, ℕ, List, length};
ghost use Rattle.std.specs.declared.option.Option.{Option};
ghost use Rattle.aps_io.specs.Bytes.{Reads, ReadCause};

/// What a read gave: so many bytes at the front of the buffer, the end of the source, or a fault.
#[derive(Clone, Copy, Debug, PartialEq, Eq)]
pub enum ReadAnswer {
    Got(usize),
    End,
    Failed,
}

/// A source of bytes that counts its faults.
pub trait Source {
    /// The bytes still to come, where the source tells.
    ghost left: { Self → Option (List ℕ) };

    /// A count of faults, which stands still at the greatest `u64`.
    ghost faults: { Self → ℕ };

    /// A count that a read raises by one at most.
    ghost reads: { Self → ℕ } = { λ _. 0 };

    /// Moves the next bytes to the front of `into`, from one up to its length. After `Failed` the
    /// bytes still to come are unchanged, and the count of faults rose.
    fn read(&mut self, into: &mut [u8]) -> ReadAnswer
        requires { 0 < length into.old }
        ensures bytes { Reads (left self.old) (left self.new) result into.new }
        ensures cause { ReadCause (faults self.old) (faults self.new) result }
        ensures counted { reads self.new ≤ reads self.old + 1 };
}
