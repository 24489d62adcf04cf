//! Room: shelves. Takes pairs in the order of their keys, and a key; gives the place where the key
//! stands or would stand. Knows nothing of bags and dictionaries. Its tests stand in
//! `shelves_tests`.
#![tactic(auto)]

mod search;

pub use search::{ascend, place};
