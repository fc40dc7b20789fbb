//! Tests of whole calls of the program `apsview`. They stand in a crate of their own, so that the calls are proved once.
#![tactic(auto)]

#[cfg(test)]
mod tests;
