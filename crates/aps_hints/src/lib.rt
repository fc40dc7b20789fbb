//! What a person is told of a refusal: the value that was refused, what is wanted in its place, and the usage of a command.
#![tactic(auto)]

mod blame;
mod budget;
mod fault;
mod input;
mod kept;
mod line;
mod names;
mod operation;
mod options;
mod place;
mod placed;
mod refused;
mod scan;
mod scenario;
mod spot;
mod takes;
mod tell;
mod told;
mod value;
mod view_usage;
mod wanted;
mod watched;
mod words;
mod wrong;
mod wrong_told;

pub use input::{Given, check_hint, view_hint, whole_hint};
pub use kept::KeptSource;
pub use line::{Line, MOST_BYTES};
pub use refused::refusal_hint;
pub use scenario::scenario_hint;
pub use spot::Document;
pub use tell::{tell_line, tell_read_fault, tell_words, tell_write_fault};
pub use view_usage::{ViewUsage, view_usage_meant};
pub use watched::WatchedSink;
pub use words::{Usage, usage_meant, words_hint};
pub use wrong::{Program, value_given};
pub use wrong_told::wrong_hint;
