//! Room: shelves. Takes keys with values; gives a map that shows them in the order in which their
//! keys came, and finds a key without a walk over the others. Knows nothing of objects. Its tests
//! stand in `shelves_tests`.
#![tactic(auto)]

pub mod laws;
mod map;

pub use map::InsertionMap;
