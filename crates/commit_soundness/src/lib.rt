//! Room: meaning. Gives the laws of what a commit makes of a sound image; no code. Knows nothing of
//! how anything is computed fast.
#![tactic(auto)]

pub mod laws;
