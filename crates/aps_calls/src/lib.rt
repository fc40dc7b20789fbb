//! What the calls of both programs share: how a call ended, why it has no result, and how a text goes to a sink under a status.
#![tactic(auto)]

pub mod failure;
pub mod parts;
pub mod printing;
pub mod refusal;
pub mod status;
pub mod verdict;
