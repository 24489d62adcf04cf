//! The limits of what a chunk may use, and of what an object may hold.

/// How many units a chunk may use: one for each message, and one for each turn of a loop.
pub const UNIT_LIMIT: u64 = 1_000_000;

/// How much space a chunk may use: an object that is made takes one and one for each slot, bytes
/// one for each 8 begun.
pub const SPACE_LIMIT: u64 = 4_000_000;

/// How many slots an object has at most.
pub const SLOTS_LIMIT: u64 = 65_000;

/// How many bytes an object has at most where it is stored.
pub const BYTES_LIMIT: u64 = 1_048_576;

/// How many bytes the text has at most that a chunk writes on the transcript.
pub const TRANSCRIPT_LIMIT: u64 = 65_536;

/// The counters in names are below this.
pub const COUNTER_LIMIT: u64 = 1 << 24;

/// How many classes are gone through upwards at most: as many as there are names.
pub const CHAIN_LIMIT: u64 = 1 << 48;

/// How many activations live at once at most: the chunk's own, and one for each method with source
/// and each block that runs.
pub const ACTIVATION_LIMIT: u64 = 2_000;

/// How many groups a segment names at most, and in how many a user is at most.
pub const GROUPS_LIMIT: u64 = 100;

/// How many bytes the printed text of a value has at most.
pub const PRINT_LIMIT: u64 = 65_536;
