//! How long names are at most.

/// How many bytes a symbol of a text has at most.
pub const SYMBOL_LIMIT: usize = 1_000;

/// How many bytes a user name has at most.
pub const USER_LIMIT: usize = 64;
