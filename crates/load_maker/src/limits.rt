//! How large a load may be.

/// The largest seed of a load.
pub const LOAD_SEED_LIMIT: u32 = 2_147_483_647;

/// How many sessions a load has at most. It has one at least.
pub const LOAD_SESSION_LIMIT: u32 = 16;

/// How many rounds each session of a load has at most. It has one at least.
pub const LOAD_ROUND_LIMIT: u32 = 1_000;
