//! Room: values. Tests `gem_image` and `kernel_image`.
//!
//! No crate has tests of its own, as it would be proved once more with them.
#![tactic(auto)]

#[cfg(test)]
mod gem_image_tests;
#[cfg(test)]
mod objects;
#[cfg(test)]
mod sound_tests;
