//! Room: shelves. Keeps the two files of a disk in the file system. Knows nothing of what stands in
//! the files.
//!
//! The disk is `FileDisk`, over a small trait of the calls that it makes of the file system,
//! `FileCalls`, which may tell them. That of the host's file system is `HostFiles`. Its tests stand
//! in `shelves_tests`.
#![tactic(auto)]

mod calls;
mod disk;
mod host;
mod late_file;

pub use calls::FileCalls;
pub use disk::FileDisk;
pub use host::HostFiles;
