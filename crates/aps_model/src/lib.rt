//! The types of the simulated scheduler, and in `specs/` the definitions that every contract cites
//! (`docs/DEFINITIONS.md` has them in words). Every other crate but `aps_io`, `aps_levels` and `aps_ticks` stands on it.
#![tactic(auto)]

pub mod audit;
pub mod command;
pub mod demand;
pub mod entry;
pub mod finished;
pub mod history;
pub mod ids;
pub mod laws;
pub mod limits;
pub mod merit;
pub mod name;
pub mod partition;
pub mod program;
pub mod scenario;
pub mod shape;
pub mod state;
pub mod usage;

pub use audit::{Audit, Worst};
pub use command::{
    Answer, Call, Change, ChangeKind, CommandRow, CtlRefusal, CtlView, Reply, ThreadView,
};
pub use demand::Demand;
pub use entry::{Done, End, Entry, Order};
pub use finished::finished_ticks;
pub use history::History;
pub use ids::{ChannelId, CpuId, Nanos, NoMemory, OutOfRange, PartitionId, ThreadId};
pub use merit::{Contender, Merit, PartFacts, Rank, has_allowance, less_fraction};
pub use name::{Name, NameBad};
pub use partition::{PartitionRow, TreeRefusal};
pub use program::{Op, Program};
pub use scenario::{Policy, Scenario, ThreadRow};
pub use shape::{Bankruptcy, Free, Shape};
pub use state::{CpuNow, Facts, Pick, State, ThreadNow};
pub use usage::{Usage, overlap};
