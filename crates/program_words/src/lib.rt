//! Room: sessions and server. Takes the words of a command line; gives what they ask for, or that
//! they ask for nothing. Knows nothing of how it is done. Its tests stand in `words_tests`.
#![tactic(auto)]

mod demo;
mod files;
pub mod laws;
mod number;
mod reading;
mod words;

pub use reading::read_words;
pub use words::{DEFAULT_ROUNDS, Paths, Usage, Words};
