//! Room: sessions and server. Tests the libraries of the room, a file for each.
//!
//! A crate that has its tests in itself is proved once more with them.
#![tactic(auto)]

#[cfg(test)]
mod full_extent_tests;
#[cfg(test)]
mod full_log_tests;
#[cfg(test)]
mod gate_tests;
#[cfg(test)]
mod gem_replies_tests;
#[cfg(test)]
mod gem_session_tests;
#[cfg(test)]
mod halts;
#[cfg(test)]
mod keepers;
#[cfg(test)]
mod shell_words_tests;
