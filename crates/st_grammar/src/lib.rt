//! Room: language. Says what tokens and what tree a text has, or where and why it fails. No code but
//! a limit.
#![tactic(auto)]

mod limits;

pub use limits::DEPTH_LIMIT;
