//! Room: language. Has the laws of the grammar, and the function that gives what it says. No code.
#![tactic(auto)]

pub mod laws;
