//! Room: meaning. Gives the laws of histories over objects: what stands after the events of a
//! Stone; no code. Knows nothing of how anything is computed fast.
#![tactic(auto)]

pub mod laws;
