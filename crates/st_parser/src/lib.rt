//! Room: language. Takes a text; gives its tree, or where it fails. Knows nothing of meanings. Its
//! tests stand in `language_tests`.
#![tactic(auto)]

mod declarations;
mod expressions;
mod faults;
mod levels;
mod literals;
mod numbers;
mod parse;
mod reader;
mod scopes;
mod stops;

pub use faults::ParseFault;
pub use parse::{parse_chunk, parse_method};
