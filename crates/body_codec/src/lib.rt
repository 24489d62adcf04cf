//! Room: values. Takes objects and effects; gives the bytes in which they are stored, and reads
//! them back from such bytes. Knows nothing of files, of scripts and of who runs what. Its tests
//! stand in `objects_tests`.
#![tactic(auto)]

mod fault;
mod items;
pub mod laws;
mod numbers;
mod read;
mod read_bodies;
mod read_items;
mod read_lists;
mod read_objects;
mod write;

pub use fault::{BodyFault, BodyRule, Flaw};
pub use read_objects::{read_effect, read_object};
pub use write::{write_effect, write_object};
