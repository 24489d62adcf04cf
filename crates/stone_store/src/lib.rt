//! Room: store. Opens a store of two files, an extent with checkpoints and a log of the commits since,
//! and stores commits and checkpoints in them. Knows nothing of sessions. Its tests stand in
//! `store_tests`.
#![tactic(auto)]

mod adding;
mod checking;
mod count;
mod fault;
pub mod laws;
mod opening;
mod parts;
mod records;
mod store;

pub use fault::{StoreFault, StoreFlaw};
pub use opening::{Opened, open_store};
pub use parts::FoundImage;
pub use store::Store;
