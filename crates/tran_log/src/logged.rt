//! A record of a log, as it is read.

use gem_record::{Effect, Mode};

/// A record of a log, as it is read.
#[derive(Debug, Drop)]
pub struct Logged {
    /// The offset of the record's gate.
    pub at: u64,
    /// The mode of the commit. A record of format 1 tells none, and counts as `Full`.
    pub mode: Mode,
    /// What the commit changes.
    pub effect: Effect,
}
