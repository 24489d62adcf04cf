//! Room: store. Writes pieces into the extent of a disk, and then one byte that makes them count, so
//! that what a crash leaves is known at each moment. Knows nothing of what the bytes mean. Its tests
//! stand in `store_tests`.
#![tactic(auto)]

mod piece;
mod writing;

pub use piece::Piece;
pub use writing::{bring, bring_and_switch, switch};
