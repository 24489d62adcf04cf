//! Room: running. Takes a tree; gives the code that does what the tree means. Knows nothing of the
//! Stone and of other sessions. Its tests stand in `compiler_tests`.
#![tactic(auto)]

mod emit;
mod instr;
pub mod laws;
mod parts;
mod program;

pub use instr::{BlockBody, Instr};
pub use program::{Compiled, compile};
