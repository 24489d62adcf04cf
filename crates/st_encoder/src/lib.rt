//! Room: running. Takes compiled code; gives its bytes, which keep the rules of checked code. Knows
//! nothing of the Stone and of other sessions. Its tests stand in `code_tests`.
#![tactic(auto)]

mod error;
pub mod laws;
mod literal;
mod operands;
mod writer;

pub use error::EncodeError;
pub use writer::encode;
