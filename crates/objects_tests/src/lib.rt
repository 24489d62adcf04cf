//! Room: values. Tests `gem_object`, `gem_record` and `body_codec`.
//!
//! No crate has tests of its own, as it would be proved once more with them.
#![tactic(auto)]

#[cfg(test)]
mod body_codec_reading_tests;
#[cfg(test)]
mod body_codec_tests;
#[cfg(test)]
mod gem_object_tests;
#[cfg(test)]
mod gem_record_tests;
