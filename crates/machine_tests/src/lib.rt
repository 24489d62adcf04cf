//! Room: running. Tests `st_machine`, with the tables of chunks on a `session_view`, and else on a
//! `plain_state`.
//!
//! A crate that has its tests in itself is proved once more with them.
#![tactic(auto)]

#[cfg(test)]
mod element_calls;
#[cfg(test)]
mod machine_calls;
#[cfg(test)]
mod machine_tests;
