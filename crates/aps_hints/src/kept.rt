//! A source that keeps what it gave.
ghost use Rattle.std.specs.Prelude.{◌≡◌, ◌++◌, if◌then◌else◌};

use aps_io::{ReadAnswer, Source};
use std::alloc::Global;

/// The most bytes that are kept. A longer input has no hint, so that none takes twice the time of the longest scenario.
const MOST_KEPT: usize = 262_144;

/// A source that keeps a copy of the first bytes that it gave, up to 262,144 of them. The room for these is taken by `new`.
#[derive(Drop)]
pub struct KeptSource<S: Source> {
    source: S,
    kept: Vec<u8>,
    is_full: bool,
}

impl<S: Source> KeptSource<S> {
    /// A source that gave nothing so far. Where there is no memory for the copy it keeps none.
    pub fn new(alloc: Global, source: S) -> KeptSource<S>
        ensures { result.source ≡ source }
    {
        let kept = match Vec::with_capacity(alloc, MOST_KEPT) {
            Ok(kept) => kept,
            Err(_) => Vec::new(alloc),
        };
        KeptSource {
            source,
            kept,
            is_full: false,
        }
    }

    /// The first bytes that the source gave.
    pub fn kept(&self) -> &[u8]
        ensures { result.now ≡ self.now.kept.items }
    {
        self.kept.as_slice()
    }

    /// Whether the source may have given more bytes than are kept.
    pub fn is_full(&self) -> bool
        ensures { result ≡ self.now.is_full }
    {
        self.is_full
    }
}

/// Puts a piece behind what is kept, and says whether it had room there; a piece without room is left out whole. It takes no
/// memory.
fn keep(kept: &mut Vec<u8>, piece: &[u8]) -> bool
    ensures { kept.new.items ≡ (if result then kept.old.items ++ piece.now else kept.old.items) }
{
    let room = kept.capacity().saturating_sub(kept.len());
    piece.len() <= room && kept.extend_from_slice(piece).is_ok()
}

impl<S: Source> Source for KeptSource<S> {
    ghost left = { λ s. S.left s.source };

    ghost faults = { λ s. S.faults s.source };

    ghost reads = { λ s. S.reads s.source };

    /// One read of the source, of which what it gave is kept.
    fn read(&mut self, into: &mut [u8]) -> ReadAnswer {
        let answer = self.source.read(into);
        if let ReadAnswer::Got(n) = answer {
            if !self.is_full {
                self.is_full = !keep(&mut self.kept, &into[..n]);
            }
        }
        answer
    }
}
