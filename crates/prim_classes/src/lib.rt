//! Room: running. Gives the primitives that any receiver understands, and those of blocks, of new
//! objects and of classes. Knows nothing of trees, of the Stone and of other sessions. Its tests
//! stand in `running_tests`.
#![tactic(auto)]

mod any;
mod blocks;
mod by_number;
mod class_names;
mod classes;
mod creation;
mod growing;
mod kind_of;
mod printing;
mod segments;
mod words;

pub use by_number::call;
pub use printing::{print_text, short_text};
