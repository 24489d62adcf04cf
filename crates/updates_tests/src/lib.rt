//! Room: values. Tests `gem_update`, `body_growth` and `kept_set`, a file for each.
//!
//! No crate has tests of its own, as it would be proved once more with them.
#![tactic(auto)]

#[cfg(test)]
mod body_growth_tests;
#[cfg(test)]
mod gem_update_tests;
#[cfg(test)]
mod kept_set_tests;
