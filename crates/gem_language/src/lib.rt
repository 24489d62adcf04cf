//! Room: meaning. Gives what sends, names, literals, methods, chunks and lists of commands mean
//! over objects. Knows nothing of how anything is computed fast, of commits and of sessions.
#![tactic(auto)]

mod found;
pub mod laws;
pub mod tree_laws;

pub use found::Found;
