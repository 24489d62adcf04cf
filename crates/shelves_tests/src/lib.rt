//! Room: shelves. Tests the crates of the room, a file for each.
//!
//! A crate that has its tests in itself is proved once more with them.
#![tactic(auto)]

#[cfg(test)]
mod file_disk_tests;
#[cfg(test)]
mod gem_disk_tests;
#[cfg(test)]
mod gem_io_tests;
#[cfg(test)]
mod insertion_map_tests;
#[cfg(test)]
mod integers_tests;
#[cfg(test)]
mod list_stack_tests;
#[cfg(test)]
mod radix_pages_tests;
#[cfg(test)]
mod recorded_calls;
#[cfg(test)]
mod sorted_pairs_tests;
#[cfg(test)]
mod texts_tests;
#[cfg(test)]
mod watched_files;
