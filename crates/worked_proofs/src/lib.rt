//! Worked scenarios as theorems, and no code. In `proofs/Rows/` the definitions of `aps_model` compute to the whole
//! entry lists, summaries and windows of `crates/worked/data/`; beside them stand single facts of ends, orders, trees and bounds
//! (docs/CONTRIBUTING.md). Nothing stands on this crate. Whoever changes a definition sees here whether it still computes to
//! what was worked out by hand.
#![tactic(auto)]
