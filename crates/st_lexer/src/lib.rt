//! Room: language. Takes a text; gives its tokens, or the first bad one. Knows nothing of trees.
//! Its tests stand in `language_tests`.
#![tactic(auto)]

mod kinds;
pub mod laws;
mod lex;
mod numbers;
mod pieces;
mod quotes;
mod token_values;
mod words;

pub use kinds::{LexFault, Token, TokenKind};
pub use lex::tokens;
pub use token_values::{character_value, number_value, string_value, symbol_value};
