//! How deep a text is at most.

/// How deep blocks, parentheses and literal arrays may be nested.
pub const DEPTH_LIMIT: usize = 200;
