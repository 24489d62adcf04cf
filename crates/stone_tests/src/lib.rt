//! Room: Stone. Tests the crates of the room, a file for each part.
//!
//! A crate that has its tests in itself is proved once more with them.
#![tactic(auto)]

#[cfg(test)]
mod effect_tests;
#[cfg(test)]
mod keeper_tests;
#[cfg(test)]
mod lock_table_tests;
#[cfg(test)]
mod lock_tests;
#[cfg(test)]
mod log_tests;
#[cfg(test)]
mod sent_tests;
#[cfg(test)]
mod setting;
