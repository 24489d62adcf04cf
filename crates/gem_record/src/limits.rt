//! How much may be stored.

/// The most bytes that a log may have.
pub const LOG_LIMIT: u64 = 67_108_864;

/// The most pages that a checkpoint may count.
pub const PAGE_LIMIT: u64 = 262_144;
