//! Room: language. Tests the crates of the room, a file for each.
//!
//! A crate that has its tests in itself is proved once more with them.
#![tactic(auto)]

#[cfg(test)]
mod op_table_tests;
#[cfg(test)]
mod st_code_tests;
#[cfg(test)]
mod st_lexer_tests;
#[cfg(test)]
mod st_parser_tests;
#[cfg(test)]
mod st_tree_tests;
