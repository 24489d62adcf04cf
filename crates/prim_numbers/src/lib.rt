//! Room: running. Gives the primitives of integers and characters, 10 to 27, over any objects.
//! Knows nothing of trees, of the Stone and of other sessions. Its tests stand in `running_tests`.
#![tactic(auto)]

mod arithmetic;
mod at_once;
mod bits;
mod operation;
mod radix;
mod rows;

pub use at_once::ready;
pub use rows::call;
