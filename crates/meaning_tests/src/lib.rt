//! Room: meaning. Tests the crates of the room, a file for each.
//!
//! A crate that has its tests in itself is proved once more with them.
#![tactic(auto)]

#[cfg(test)]
mod object_programs_tests;
