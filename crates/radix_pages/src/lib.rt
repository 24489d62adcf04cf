//! Room: shelves. Takes numbers as keys and values of any type; gives maps of which many share what
//! they have in common, so that a changed one costs no copy. Knows nothing of objects. Its tests
//! stand in `shelves_tests`.
#![tactic(auto)]

mod digits;
pub mod laws;
mod next;
mod node;
mod pages;
mod set;
mod steps;

pub use pages::Pages;
pub use steps::Steps;
