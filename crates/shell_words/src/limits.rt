//! How large a script is at most.

/// How many bytes a script has at most.
pub const SCRIPT_LIMIT: usize = 1_048_576;

/// How many sessions a script has at most.
pub const SESSION_LIMIT: usize = 16;

/// A session has fewer commands than this.
pub const COMMAND_LIMIT: usize = 1_048_576;

/// How many bytes the text of a chunk or a method has at most.
pub const CHUNK_LIMIT: usize = 65_536;
