//! How long a text may be that is read.

/// A text that is run, and a method's source, has fewer bytes than this.
pub const SOURCE_LIMIT: usize = 1 << 32;
