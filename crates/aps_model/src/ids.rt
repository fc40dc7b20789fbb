//! The numbers of processors, threads, partitions and channels.
ghost use Rattle.std.specs.Prelude.{◌≡◌, ℕ, ◌<◌, ◌≤◌, ◌↔◌, ◌∷◌, IsOk, IfOk, IfErr};
ghost use Rattle.std.specs.Coded.{coded_ℕ};
ghost use Rattle.aps_model.specs.Limits.{last_channel, last_cpu, last_partition, last_thread};

use crate::limits::{LAST_CHANNEL, LAST_CPU, LAST_PARTITION, LAST_THREAD};
use std::alloc::AllocError;
use std::marker::Model;

/// Want of memory: the one answer that no clause ties to a cause.
pub type NoMemory = AllocError;

/// Simulated time, in nanoseconds.
pub type Nanos = u64;

/// A number that stands outside its range, which is from `low` to `high`, both included.
#[derive(Clone, Copy, Debug, PartialEq, Eq)]
pub struct OutOfRange {
    pub value: u64,
    pub low: u64,
    pub high: u64,
}

/// A processor, by its number, 0 to 15. Contracts see it as that number.
#[derive(Clone, Copy, Debug, PartialEq, Eq, PartialOrd, Ord)]
pub struct CpuId {
    index: u8,
}

impl Model for CpuId {
    ghost Value = { ℕ };

    ghost view = { λ i. i.index };

    ghost invariant = { λ i. i.index ≤ last_cpu };

    ghost inverse = { λ n. record { index = n } };
}

impl CpuId {
    /// The processor with this number, 0 to 15. `OutOfRange` comes exactly where the number is greater, and has
    /// it and the range.
    pub fn new(value: u64) -> Result<Self, OutOfRange>
        ensures accepted { IsOk result ↔ (value ≤ last_cpu) }
        ensures kept { IfOk result (λ id. id ≡ value) }
        ensures outside { IfErr result (λ e. e ≡ record { value = value; low = 0; high = last_cpu }) }
    {
        if value <= LAST_CPU {
            Ok(CpuId { index: value as u8 })
        } else {
            Err(OutOfRange {
                value,
                low: 0,
                high: LAST_CPU,
            })
        }
    }

    /// The processor with this number, which is at most 15.
    pub fn at(index: usize) -> Self
        requires { index ≤ last_cpu }
        ensures { result ≡ index }
    {
        CpuId { index: index as u8 }
    }

    /// The number as an index.
    pub fn index(self) -> usize
        ensures same { result ≡ self }
        ensures small { result ≤ last_cpu }
    {
        self.index as usize
    }
}

/// A thread, by its number, 0 to 1,023: its place in the scenario. Contracts see it as that number.
#[derive(Clone, Copy, Debug, PartialEq, Eq, PartialOrd, Ord)]
pub struct ThreadId {
    index: u16,
}

impl Model for ThreadId {
    ghost Value = { ℕ };

    ghost view = { λ i. i.index };

    ghost invariant = { λ i. i.index ≤ last_thread };

    ghost inverse = { λ n. record { index = n } };
}

impl ThreadId {
    /// The thread with this number, 0 to 1,023. `OutOfRange` comes exactly where the number is greater, and has
    /// it and the range.
    pub fn new(value: u64) -> Result<Self, OutOfRange>
        ensures accepted { IsOk result ↔ (value ≤ last_thread) }
        ensures kept { IfOk result (λ id. id ≡ value) }
        ensures outside { IfErr result (λ e. e ≡ record { value = value; low = 0; high = last_thread }) }
    {
        if value <= LAST_THREAD {
            Ok(ThreadId {
                index: value as u16,
            })
        } else {
            Err(OutOfRange {
                value,
                low: 0,
                high: LAST_THREAD,
            })
        }
    }

    /// The thread with this number, which is at most 1,023.
    pub fn at(index: usize) -> Self
        requires { index ≤ last_thread }
        ensures { result ≡ index }
    {
        ThreadId {
            index: index as u16,
        }
    }

    /// The number as an index.
    pub fn index(self) -> usize
        ensures same { result ≡ self }
        ensures small { result ≤ last_thread }
    {
        self.index as usize
    }
}

/// A partition, by its number, 0 to 31. `System` is 0. Contracts see it as that number.
#[derive(Clone, Copy, Debug, PartialEq, Eq, PartialOrd, Ord)]
pub struct PartitionId {
    index: u8,
}

impl Model for PartitionId {
    ghost Value = { ℕ };

    ghost view = { λ i. i.index };

    ghost invariant = { λ i. i.index ≤ last_partition };

    ghost inverse = { λ n. record { index = n } };
}

impl PartitionId {
    /// The partition with this number, 0 to 31. `OutOfRange` comes exactly where the number is greater, and has
    /// it and the range.
    pub fn new(value: u64) -> Result<Self, OutOfRange>
        ensures accepted { IsOk result ↔ (value ≤ last_partition) }
        ensures kept { IfOk result (λ id. id ≡ value) }
        ensures outside { IfErr result (λ e. e ≡ record { value = value; low = 0; high = last_partition }) }
    {
        if value <= LAST_PARTITION {
            Ok(PartitionId { index: value as u8 })
        } else {
            Err(OutOfRange {
                value,
                low: 0,
                high: LAST_PARTITION,
            })
        }
    }

    /// The partition with this number, which is at most 31.
    pub fn at(index: usize) -> Self
        requires { index ≤ last_partition }
        ensures { result ≡ index }
    {
        PartitionId { index: index as u8 }
    }

    /// The number as an index.
    pub fn index(self) -> usize
        ensures same { result ≡ self }
        ensures small { result ≤ last_partition }
    {
        self.index as usize
    }
}

/// A channel, by its number, 0 to 255: its place in the scenario. Contracts see it as that number.
#[derive(Clone, Copy, Debug, PartialEq, Eq, PartialOrd, Ord)]
pub struct ChannelId {
    index: u8,
}

impl Model for ChannelId {
    ghost Value = { ℕ };

    ghost view = { λ i. i.index };

    ghost inverse = { λ n. record { index = n } };
}

impl ChannelId {
    /// The channel with this number, 0 to 255. `OutOfRange` comes exactly where the number is greater, and has
    /// it and the range.
    pub fn new(value: u64) -> Result<Self, OutOfRange>
        ensures accepted { IsOk result ↔ (value ≤ last_channel) }
        ensures kept { IfOk result (λ id. id ≡ value) }
        ensures outside { IfErr result (λ e. e ≡ record { value = value; low = 0; high = last_channel }) }
    {
        if value <= LAST_CHANNEL {
            Ok(ChannelId { index: value as u8 })
        } else {
            Err(OutOfRange {
                value,
                low: 0,
                high: LAST_CHANNEL,
            })
        }
    }

    /// The channel with this number, which is at most 255.
    pub fn at(index: usize) -> Self
        requires { index ≤ last_channel }
        ensures { result ≡ index }
    {
        ChannelId { index: index as u8 }
    }

    /// The number as an index.
    pub fn index(self) -> usize
        ensures same { result ≡ self }
        ensures small { result ≤ last_channel }
    {
        self.index as usize
    }
}
