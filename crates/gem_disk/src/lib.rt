//! Room: shelves. Reads and writes the two files of a disk, and says what a crash may leave of
//! them. Knows nothing of what stands in the files.
//!
//! The trait is `Disk`, with a disk in memory, which fails in the calls that one chooses and gives
//! what a crash may leave. Its tests stand in `shelves_tests`.
#![tactic(auto)]

mod disk;
mod images;
pub mod laws;
mod memory;
mod recorded;

pub use disk::{Disk, Which};
pub use images::{Images, Pick};
pub use memory::MemDisk;
