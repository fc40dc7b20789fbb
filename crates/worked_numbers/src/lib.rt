//! Numbers of worked scenarios as theorems, and no code: how near the laws of windows come to being used up, and what happens
//! in the scenarios that refute sentences which one would like to have (docs/PROVED.md, "What isn't true"); and for how much two runs take
//! room. The scenarios are those of `worked_proofs`, and each number is computed by the definitions that the laws speak of. Nothing stands
//! on this crate.
#![tactic(auto)]
