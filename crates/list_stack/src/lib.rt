//! Room: shelves. Takes items, list by list; gives a stack of lists that stand one behind the other
//! in one stretch of memory. Knows nothing of scopes and of variables. Its tests stand in
//! `shelves_tests`.
#![tactic(auto)]

mod stack;

pub use stack::ListStack;
