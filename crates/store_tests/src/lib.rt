//! Room: store. Tests `disk_pieces`, `tran_log` and `stone_store`, and shows what a log promises over
//! several calls.
//!
//! No crate has tests of its own, as it would be proved once more with them.
#![tactic(auto)]

pub mod again;
#[cfg(test)]
mod disk_pieces_tests;
pub mod limits;
#[cfg(test)]
mod sink;
#[cfg(test)]
mod stone_store_tests;
#[cfg(test)]
mod tran_log_tests;
#[cfg(test)]
mod untold;
