//! Why the pool doesn't work.
use aps_scenario::ScenarioRefusal;
use std::alloc::AllocError;
use std::io;
use thiserror::Error;

/// Why the pool doesn't work.
#[derive(Debug, Drop, Error)]
pub enum PoolError {
    /// The words are neither none nor `clock`.
    #[error("usage: aps_pool [clock]")]
    Words,
    /// The text of the scenario is refused, or isn't what the pool is made for.
    #[error("the pool's scenario is refused")]
    Scenario,
    #[error("out of memory")]
    NoMemory,
    /// Not every thread could be made.
    #[error("no threads")]
    NoThreads,
    /// The clock, the words or standard output failed.
    #[error("{0}")]
    Io(io::Error),
}

impl From<AllocError> for PoolError {
    fn from(_error: AllocError) -> PoolError {
        PoolError::NoMemory
    }
}

impl From<io::Error> for PoolError {
    fn from(error: io::Error) -> PoolError {
        PoolError::Io(error)
    }
}

impl From<ScenarioRefusal> for PoolError {
    fn from(refusal: ScenarioRefusal) -> PoolError {
        match refusal {
            ScenarioRefusal::Refused { .. } => PoolError::Scenario,
            ScenarioRefusal::NoMemory => PoolError::NoMemory,
        }
    }
}
