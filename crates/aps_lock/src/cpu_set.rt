//! Some processors of a run.
use aps_model::CpuId;

/// Some processors: bit c stands for processor c.
#[derive(Clone, Copy, PartialEq, Eq)]
pub(crate) struct CpuSet {
    bits: u64,
}

impl CpuSet {
    /// No processor.
    pub(crate) fn none() -> CpuSet {
        CpuSet { bits: 0 }
    }

    /// All processors.
    pub(crate) fn all() -> CpuSet {
        CpuSet { bits: 0xffff }
    }

    /// This processor alone.
    pub(crate) fn of(cpu: CpuId) -> CpuSet {
        CpuSet {
            bits: 1 << cpu.index(),
        }
    }

    /// The processors up to the last one.
    pub(crate) fn up_to(last: CpuId) -> CpuSet {
        CpuSet {
            bits: (2u64 << last.index()).wrapping_sub(1),
        }
    }

    /// The processors from the first to the last.
    pub(crate) fn between(first: CpuId, last: CpuId) -> CpuSet {
        let mut cpus = CpuSet::of(last);
        for c in first.index()..last.index() {
            cpus = cpus.with(CpuSet::of(CpuId::at(c)));
        }
        cpus
    }

    /// The processors whose bits are set.
    pub(crate) fn of_bits(bits: u64) -> CpuSet {
        CpuSet { bits }
    }

    /// The bits of the processors.
    pub(crate) fn bits(self) -> u64 {
        self.bits
    }

    /// The processors of both sets.
    pub(crate) fn with(self, other: CpuSet) -> CpuSet {
        CpuSet {
            bits: self.bits | other.bits,
        }
    }

    /// The processors of this set but for those of the other.
    pub(crate) fn without(self, other: CpuSet) -> CpuSet {
        CpuSet {
            bits: self.bits & !other.bits,
        }
    }

    /// The lowest processor of the set; none, where it has none.
    pub(crate) fn lowest(self) -> CpuSet {
        CpuSet {
            bits: self.bits & !self.bits.wrapping_sub(1),
        }
    }

    /// Whether it has no processor.
    pub(crate) fn is_empty(self) -> bool {
        self.bits == 0
    }

    /// Whether the processor is one of the set.
    pub(crate) fn has(self, cpu: CpuId) -> bool {
        self.meets(CpuSet::of(cpu))
    }

    /// Whether the sets have a processor in common.
    pub(crate) fn meets(self, other: CpuSet) -> bool {
        self.bits & other.bits != 0
    }
}
