//! Room: store. Gives what a Stone stores its commits with: a log that grows, and checkpoints of
//! the whole image. Knows nothing of sessions, and of how bytes lie on a disk. Its tests stand in
//! `stone_tests`.
#![tactic(auto)]

mod failing;
mod keeper;
mod memory;

pub use failing::FailingKeeper;
pub use keeper::{CheckFault, Keeper};
pub use memory::MemKeeper;
