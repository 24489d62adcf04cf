//! Room: running. Gives transactions on the kernel's objects, and larger images, for tests and
//! benches.
#![tactic(auto)]

mod begins;
mod images;

pub use begins::{Begins, begin, begin_over};
pub use images::larger_image;
