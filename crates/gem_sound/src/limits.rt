//! What the rules on images hold down.

/// How many names a class has at most, with those that it inherits.
pub const NAMES_LIMIT: u64 = 200;
