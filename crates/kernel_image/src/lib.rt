//! Room: values. Gives the image with which a store begins. Knows nothing of scripts and of who runs
//! what. Its tests stand in `kernel_tests`.
#![tactic(auto)]

mod build;
mod image;
pub mod laws;
mod table;

pub use image::kernel;
