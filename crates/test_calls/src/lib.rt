//! Tests of what worked calls as data (`worked`) can't show: calls on threads, and calls whose reads and writes fail; then of
//! first steps, of the drivers, of upgraded replies and of verdicts. They stand in a crate of their own, so that the crates that they test are proved once.
#![tactic(auto)]

#[cfg(test)]
mod tests;
