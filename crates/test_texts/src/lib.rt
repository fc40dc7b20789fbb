//! Tests of what reads and writes bytes and texts, and of the audit. They stand in a crate of their own, so that the crates that they test are proved once.
#![tactic(auto)]

#[cfg(test)]
mod tests;
