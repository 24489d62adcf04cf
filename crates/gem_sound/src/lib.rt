//! Room: values. Gives the definition of a sound image, the table of the kernel's classes, and the
//! names of the kernel's objects. Knows nothing of scripts and of who runs what. Its tests stand in
//! `kernel_tests`.
#![tactic(auto)]

pub mod laws;
mod limits;
pub mod names;

pub use limits::NAMES_LIMIT;
