//! Room: meaning. Gives the laws of sessions and of legal runs over objects: what their transcripts
//! tell; and the constants of all definitions as numbers; no code. Knows nothing of how anything is
//! computed fast.
#![tactic(auto)]

pub mod constants;
pub mod laws;
