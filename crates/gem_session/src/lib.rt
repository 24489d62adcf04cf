//! Room: sessions and server. Takes a session's commands and a port of the Stone; gives its
//! transcript.
//!
//! Runs one session's commands against a Stone and says what it replies. Its tests stand in
//! `sessions_tests`.
#![tactic(auto)]

mod answer;
mod known_view;
pub mod laws;
mod names;
mod run;
mod running;
mod session;
mod targets;
mod transaction;

pub use run::run_session;
