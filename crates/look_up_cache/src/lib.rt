//! Room: running. Gives objects that remember look-ups: which method answers a message, in which
//! slot an instance variable stands, how many slots a class names, and which operators integers
//! answer by primitives, and which sequences `at:` and `at:put:`, is found once and then known, until
//! something changes on which it depends. Knows nothing of how a tree is run, of the Stone and of
//! other sessions. Its tests stand in `machine_tests`.
#![tactic(auto)]

mod counts;
mod element_message;
mod elements;
mod finding;
mod kept;
mod known;
pub mod laws;
mod memory;
mod objects;
mod operator;
mod table;
mod variables;
mod writes;

pub use element_message::ElementMessage;
pub use kept::MethodCodeKept;
pub use known::KnownObjects;
pub use memory::Memory;
pub use operator::IntegerOperator;
