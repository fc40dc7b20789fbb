//! Tests of the parts of the scheduler, each used alone. They stand in a crate of their own, so that the parts are proved once.
#![tactic(auto)]

#[cfg(test)]
mod tests;
