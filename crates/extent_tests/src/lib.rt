//! Room: store. Tests `extent_pages`, `extent_plan` and `page_file`.
//!
//! No crate has tests of its own, as it would be proved once more with them.
#![tactic(auto)]

#[cfg(test)]
mod extent_pages_tests;
#[cfg(test)]
mod extent_plan_tests;
#[cfg(test)]
mod fixed;
#[cfg(test)]
mod page_file_tests;
#[cfg(test)]
mod plan_pages_tests;
#[cfg(test)]
mod untold;
