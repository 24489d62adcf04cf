//! Room: store. Writes checkpoints into an extent, so that a crash leaves it as it was or with the
//! new one. Knows nothing of the log. Its tests stand in `extent_tests`.
#![tactic(auto)]

mod around;
mod changing;
mod fault;
mod file;
pub mod laws;
mod opening;
mod used;
mod writing;

pub use fault::CheckFault;
pub use file::PageFile;
pub use opening::open_pages;
