//! Room: meaning. Gives the rules of the primitives, as programs over objects. Knows nothing of
//! trees, of look-up and of how anything is computed fast.
#![tactic(auto)]

mod answer;
pub mod later_laws;
pub mod laws;

pub use answer::PrimitiveAnswer;
