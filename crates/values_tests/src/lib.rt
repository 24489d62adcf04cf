//! Room: values. Tests crates of the room, a file for each.
//!
//! A crate that has its tests in itself is proved once more with them.
#![tactic(auto)]

#[cfg(test)]
mod gem_value_tests;
#[cfg(test)]
mod rc_counter_bag_tests;
#[cfg(test)]
mod rc_dict_tests;
#[cfg(test)]
mod rc_queue_tests;
#[cfg(test)]
mod seg_rights_tests;
