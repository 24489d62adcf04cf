//! Room: store. Says what an extent is, in pages with two roots, and reads it from a disk. Knows
//! nothing of how one is written. Its tests stand in `extent_tests`.
#![tactic(auto)]

mod chain;
mod count;
mod directory;
mod extent;
mod fault;
mod field;
pub mod laws;
mod leaf;
mod page;
mod root;

pub use count::largest_with;
pub use extent::{Extent, open_extent};
pub use fault::{PageFault, PageRule};
pub use leaf::{LEAF_SIZE, Leaf};
pub use page::{MOST_PAGES, PAGE_SIZE, PAYLOAD_SIZE};
pub use root::Root;
