//! Room: Stone. Tests `commit_check`.
//!
//! No crate has tests of its own, as it would be proved once more with them.
#![tactic(auto)]

#[cfg(test)]
mod commit_check_tests;
