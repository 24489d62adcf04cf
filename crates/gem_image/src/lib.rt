//! Room: values. Gives images of objects, and the rights that users have in them. Knows nothing of
//! scripts and of who runs what. Its tests stand in `kernel_tests`.
#![tactic(auto)]

mod image;
pub mod laws;
mod rights;

pub use image::Image;
pub use rights::{groups_of, right_on_segment, rights_of};
