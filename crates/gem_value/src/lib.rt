//! Room: values. Gives names of objects, conflicts, and lists that are changed in place. Knows
//! nothing of scripts and of who runs what. Its tests stand in `values_tests`.
#![tactic(auto)]

mod conflict;
pub mod laws;
mod oid;
mod sequence;

pub use conflict::{Conflict, ConflictKind, Conflicts};
pub use oid::Oid;
pub use sequence::Sequence;
