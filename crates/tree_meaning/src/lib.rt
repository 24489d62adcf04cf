//! Room: meaning. Gives what a tree means: a program for each method, chunk and block. Knows
//! nothing of look-up and of how a tree is run.
#![tactic(auto)]

mod form;
pub mod laws;
mod name;
mod operand;
mod place;

pub use form::Form;
pub use name::{Singleton, Where};
pub use operand::{Pair, Truth};
pub use place::Mark;
